//! The clock of the tests.

use clock::Clock;
use fix_tags::Stamp;

/// A clock that tells one stamp, and counts how many times it was asked.
#[derive(Clone, Copy)]
pub struct FakeClock {
    pub stamp: Stamp,
    pub asked: u64,
}

impl FakeClock {
    /// A clock that stands at 2031-12-31 23:59:59.999, and was not asked yet.
    pub fn new() -> Option<FakeClock> {
        let stamp = Stamp::new(2031, 12, 31, 23, 59, 59, 999)?;
        Some(FakeClock { stamp, asked: 0 })
    }
}

impl Clock for FakeClock {
    ghost last = { λ clock. clock.stamp };

    fn now(&mut self) -> Stamp {
        self.asked = self.asked.saturating_add(1);
        self.stamp
    }

    fn millis(&self) -> u64 {
        0
    }
}
