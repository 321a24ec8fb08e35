//! How a venue stands, by what its worker told, its gate, and the dial that failed last.

ghost use Rattle.std.specs.Prelude.{◌≡◌};
ghost use Rattle.desk_news.specs.declared.cause.Cause.TheVariants.{Lost};
ghost use Rattle.desk_words.specs.Printable.{shown};
ghost use Rattle.desk_floor.specs.Standing.{cause_of, dial_text, ending_of, ends_by_logout, is_logout, standing_of, state_of};
ghost use Rattle.desk_floor.specs.Standing.{up_or_held};

use desk_news::{Cause, Told, VenueState};
use desk_words::shown;
use link::DialError;
use session_core::Ended;
use venue_board::{Loss, Progress};

/// By what a person holds a venue, whose session stays up meanwhile.
#[derive(Clone, Copy, Debug, PartialEq, Eq)]
pub enum Held {
    /// The venue is paused.
    Paused,
    /// The desk is halted.
    Halted,
}

/// How a venue stands.
#[derive(Clone, Copy, Debug, PartialEq, Eq)]
pub enum Standing {
    /// It was neither up yet nor has a dial failed.
    Dialled,
    Up,
    /// Its session is up, but a person holds it.
    Held(Held),
    /// Its connection ended so, and is dialled again.
    Down(Loss),
    /// The last dial failed so.
    Unreachable(DialError),
    /// Its connection ended so, and the venue takes no orders any more.
    Closed(Loss),
    /// It takes no orders any more, since the day closes.
    Closing,
}

/// Whether the exchange logged out for the day: its session is over then, though its gate may be shut a moment later.
fn is_logout(loss: Loss) -> bool
    ensures { result ≡ is_logout loss }
{
    match loss {
        Loss::Ended(Ended::PeerLogout) => true,
        Loss::Ended(_) => false,
        Loss::PeerClosed => false,
        Loss::ReadFailed => false,
        Loss::WriteFailed => false,
        Loss::OutOfMemory => false,
        Loss::NumbersSpent => false,
        Loss::Parted => false,
    }
}

/// How a venue stands whose session is up.
fn up_or_held(held: Option<Held>) -> Standing
    ensures { result ≡ up_or_held held }
{
    match held {
        Some(held) => Standing::Held(held),
        None => Standing::Up,
    }
}

/// How a venue stands whose worker told this, whose gate is shut or not, and that a person holds or doesn't. A dial
/// that failed for a reason which isn't known failed otherwise than for those that have a name.
pub fn standing_of(
    progress: Progress,
    is_shut: bool,
    error: Option<DialError>,
    held: Option<Held>,
) -> Standing
    ensures { result ≡ standing_of progress is_shut error held }
{
    match progress {
        Progress::Down(loss) if is_shut || is_logout(loss) => Standing::Closed(loss),
        Progress::Down(loss) => Standing::Down(loss),
        _ if is_shut => Standing::Closing,
        Progress::Dialled => Standing::Dialled,
        Progress::Up => up_or_held(held),
        Progress::Unreachable => Standing::Unreachable(error.unwrap_or(DialError::Other)),
    }
}

/// Words as they are told.
fn told(words: &[u8]) -> Told
    ensures { result ≡ shown 200 words.now }
{
    shown(words)
}

/// A cause in words.
fn lost(words: &[u8]) -> Cause
    ensures { result ≡ Lost (shown 200 words.now) }
{
    Cause::Lost(told(words))
}

/// Whether a connection may have ended with the venue's Logout: as it logged out, or in the place of its Logon.
fn ends_by_logout(ended: Ended) -> bool
    ensures { result ≡ ends_by_logout ended }
{
    matches!(ended, Ended::PeerLogout | Ended::FirstNotLogon)
}

/// Why a session ended its connection, with what the venue said as it logged out, if it did.
fn ending_of(ended: Ended, said: Option<Told>) -> Cause
    ensures { result ≡ ending_of ended said }
{
    match said {
        Some(text) if ends_by_logout(ended) => Cause::Said { ended, text },
        _ => Cause::Ended(ended),
    }
}

/// Why a connection ended, in words or by its ending.
fn cause_of(loss: Loss, said: Option<Told>) -> Cause
    ensures { result ≡ cause_of loss said }
{
    match loss {
        Loss::Ended(ended) => ending_of(ended, said),
        Loss::PeerClosed => lost(b"it closed the connection"),
        Loss::ReadFailed => lost(b"read failed"),
        Loss::WriteFailed => lost(b"write failed"),
        Loss::OutOfMemory => lost(b"out of memory"),
        Loss::NumbersSpent => lost(b"no number is left for a logon"),
        Loss::Parted => ending_of(Ended::PeerLogout, said),
    }
}

/// Why a dial failed, in words.
fn dial_text(error: DialError) -> Told
    ensures { result ≡ dial_text error }
{
    match error {
        DialError::Refused => told(b"connection refused"),
        DialError::TimedOut => told(b"timed out"),
        DialError::HostUnreachable => told(b"host unreachable"),
        DialError::NetworkUnreachable => told(b"network unreachable"),
        DialError::NoSuchHost => told(b"no such host"),
        DialError::Other => told(b"dial failed"),
    }
}

impl Standing {
    /// What a desk is told of it, where the pause before the next dial lasts so many seconds, and the venue said this
    /// as it logged out, if it did.
    pub fn state(self, seconds: u64, said: Option<Told>) -> VenueState
        ensures { result ≡ state_of self seconds said }
    {
        match self {
            Standing::Dialled => VenueState::Dialled,
            Standing::Up => VenueState::Up,
            Standing::Held(Held::Paused) => VenueState::Down(lost(b"paused")),
            Standing::Held(Held::Halted) => VenueState::Down(lost(b"halted")),
            Standing::Down(loss) => VenueState::Down(cause_of(loss, said)),
            Standing::Unreachable(error) => VenueState::Unreachable {
                why: dial_text(error),
                seconds,
            },
            Standing::Closed(loss) => VenueState::Closed(cause_of(loss, said)),
            Standing::Closing => VenueState::Closed(lost(b"the day is closing")),
        }
    }
}
