//! A clock that stands still.

ghost use Rattle.std.specs.Prelude.{◌≡◌};

use crate::clock::Clock;
use fix_tags::Stamp;

/// A clock for trials and tests: it always tells one stamp, and no time passes.
#[derive(Clone, Copy, Debug)]
pub struct StoppedClock(Stamp);

impl StoppedClock {
    /// A clock that stands at this stamp.
    pub fn new(stamp: Stamp) -> StoppedClock
        ensures { result.0 ≡ stamp }
    {
        StoppedClock(stamp)
    }
}

impl Clock for StoppedClock {
    ghost last = { λ clock. clock.0 };

    fn now(&mut self) -> Stamp {
        self.0
    }

    fn millis(&self) -> u64 {
        0
    }
}
