//! What the words of the command line are.

use thiserror::Error;

/// What the words of the command line were expected to be.
#[derive(Clone, Copy, Debug, PartialEq, Eq, Error)]
pub enum Expected {
    #[error("day PART BEFORE COUNT, replay PART EVENTS, threads PART CALLERS SWEEPS, turn TURNS or wire PORT VENUES SWEEPS PAUSE REST")]
    Request,
    #[error("place, apply, send or receive")]
    DayPart,
    #[error("1 to 1000000 sweeps or legs before")]
    Before,
    #[error("a count from 1 to 200")]
    Count,
    #[error("make, read or run")]
    ReplayPart,
    #[error("1 to 10000000 events")]
    Events,
    #[error("count or time")]
    ThreadsPart,
    #[error("1 to 64 callers")]
    Callers,
    #[error("1 to 1000000 sweeps of each")]
    Sweeps,
    #[error("1 to 1000000 turns")]
    Turns,
    #[error("a port from 1 to 65520")]
    Port,
    #[error("1 to 16 venues")]
    Venues,
    #[error("1 to 1000000 sweeps")]
    WireSweeps,
    #[error("a pause of 1 to 1000000 microseconds")]
    Pause,
    #[error("sleep or spin")]
    Rest,
}
