//! Why a call of a session is refused.

ghost use Rattle.std.specs.Prelude.{◌≡◌};

use std::alloc::{AllocError, AllocFailed};
use thiserror::Error;

/// Why a call of a session is refused. A refusal leaves the session as it was.
#[derive(Clone, Copy, Debug, PartialEq, Eq, Error)]
pub enum SessionFault {
    /// There is a connection already.
    #[error("S01 not down")]
    NotDown,
    /// The session has ended for good.
    #[error("S02 closed")]
    Closed,
    /// No number is left for the message.
    #[error("S03 numbers spent")]
    NumbersSpent,
    #[error("S04 out of memory")]
    OutOfMemory,
    /// A leg is sent in phase `Up` alone.
    #[error("S05 not up")]
    NotUp,
    /// A leg of this ordinal or a higher one was sent.
    #[error("S06 ordinal not greater")]
    OrdinalNotGreater,
    /// There is no connection.
    #[error("S07 not connected")]
    NotConnected,
}

impl From<AllocError> for SessionFault {
    ghost use Rattle.session_core.specs.declared.session_fault.SessionFault.TheVariants.{OutOfMemory};

    ghost from_gives = { λ _ e. e ≡ OutOfMemory };

    fn from(_e: AllocError) -> SessionFault {
        SessionFault::OutOfMemory
    }
}

impl<T: Drop> From<AllocFailed<T>> for SessionFault {
    ghost use Rattle.session_core.specs.declared.session_fault.SessionFault.TheVariants.{OutOfMemory};

    ghost from_gives = { λ _ e. e ≡ OutOfMemory };

    fn from(_e: AllocFailed<T>) -> SessionFault {
        SessionFault::OutOfMemory
    }
}
