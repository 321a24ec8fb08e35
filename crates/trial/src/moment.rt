//! The moment of every message of a trial.

use crate::TrialFault;
use clock::StoppedClock;
use fix_tags::Stamp;

/// Half past two in the afternoon of the second of January 2024.
pub fn stamp() -> Result<Stamp, TrialFault> {
    Stamp::new(2024, 1, 2, 14, 30, 0, 0).ok_or(TrialFault::Missing)
}

/// A clock that stands at this moment.
pub fn stopped_clock() -> Result<StoppedClock, TrialFault> {
    Ok(StoppedClock::new(stamp()?))
}
