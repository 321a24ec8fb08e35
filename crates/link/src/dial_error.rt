//! Why a dial failed, and who is told.

ghost use Rattle.std.specs.Prelude.{◌≡◌, Some, slice_get};
ghost use Rattle.link.specs.Dialling.{dial_errors};

use std::io::ErrorKind;
use std::sync::atomic::{AtomicU64, Ordering};

/// Why a dial failed.
#[derive(Clone, Copy, Debug, PartialEq, Eq)]
pub enum DialError {
    /// Nobody listens there.
    Refused,
    /// Nobody answered in time.
    TimedOut,
    /// No way leads to the host.
    HostUnreachable,
    /// No way leads to its network.
    NetworkUnreachable,
    /// The resolver gave no address for the host's name.
    NoSuchHost,
    /// Anything else.
    Other,
}

impl DialError {
    /// Each of them, at the place of its code.
    const ALL: [DialError; 6] = [
        DialError::Refused,
        DialError::TimedOut,
        DialError::HostUnreachable,
        DialError::NetworkUnreachable,
        DialError::NoSuchHost,
        DialError::Other,
    ];

    /// What an error of the system means for a dial.
    pub(crate) fn of(kind: ErrorKind) -> DialError {
        match kind {
            ErrorKind::ConnectionRefused => DialError::Refused,
            ErrorKind::TimedOut => DialError::TimedOut,
            ErrorKind::HostUnreachable => DialError::HostUnreachable,
            ErrorKind::NetworkUnreachable => DialError::NetworkUnreachable,
            _ => DialError::Other,
        }
    }

    /// Its code, which tells it from each other one.
    fn code(self) -> u64
        ensures { slice_get dial_errors result ≡ Some self }
    {
        match self {
            DialError::Refused => 0,
            DialError::TimedOut => 1,
            DialError::HostUnreachable => 2,
            DialError::NetworkUnreachable => 3,
            DialError::NoSuchHost => 4,
            DialError::Other => 5,
        }
    }

    /// What a code stands for, if it stands for something.
    fn of_code(code: u64) -> Option<DialError>
        ensures { result ≡ slice_get dial_errors code }
    {
        DialError::ALL.get(code as usize).copied()
    }
}

/// Tells others why the last dial that failed did.
#[derive(Drop)]
pub struct LastDial(AtomicU64);

impl LastDial {
    /// No dial has failed.
    pub fn new() -> LastDial {
        LastDial(AtomicU64::new(u64::MAX))
    }

    /// A dial failed so.
    pub(crate) fn note(&self, error: DialError) {
        self.0.store(error.code(), Ordering::SeqCst);
    }

    /// Why the last dial that failed did, if one has.
    pub fn error(&self) -> Option<DialError> {
        DialError::of_code(self.0.load(Ordering::SeqCst))
    }
}
