//! Why a line says nothing.

use thiserror::Error;

/// Why a line of a log says nothing.
#[derive(Clone, Copy, Debug, PartialEq, Eq, Error)]
pub enum LineFault {
    #[error("too short for a time and a direction")]
    Short,
    #[error("no time as 20261124-14:30:00.123 at its front")]
    Time,
    #[error("neither ' > ' nor ' < ' behind its time")]
    Direction,
    #[error("a byte that isn't printable, as the carriage return of CRLF")]
    Byte,
    #[error("a backslash before what no log has behind one")]
    Escape,
    #[error("no ' : ' behind its time")]
    Mark,
    #[error("a message that is neither from the desk nor to it")]
    Parties,
    #[error("out of memory")]
    OutOfMemory,
}
