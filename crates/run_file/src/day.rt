//! The day.

use clock::{Clock, UtcClock};
use desk_config::Day;
use std::time;

/// The day in UTC.
pub fn today<R: time::Clock>(rt: &R) -> Day {
    let mut clock = UtcClock::new(rt);
    Day::of(&clock.now())
}
