//! The system's clock.

ghost use Rattle.std.specs.Prelude.{◌≡◌, MatchResult};
ghost use Rattle.clock.specs.StampAt.{first_stamp, IsToldOf};

use crate::clock::Clock;
use crate::instant::stamp_at;
use fix_tags::Stamp;
use jiff::{Error, Timestamp};
use std::time;

/// The clock of the system that `time` stands for. Where it can't be read, or its moment has no stamp, it tells its
/// last stamp again, which at first is 19700101-00:00:00.000.
#[derive(Drop)]
pub struct UtcClock<'a, T: time::Clock> {
    time: &'a T,
    last: Stamp,
}

impl<'a, T: time::Clock> UtcClock<'a, T> {
    /// A clock that has told nothing yet.
    pub fn new(time: &'a T) -> UtcClock<'a, T>
        ensures { result.last ≡ first_stamp }
    {
        UtcClock {
            time,
            last: Stamp::new(1970, 1, 1, 0, 0, 0, 0).unwrap(),
        }
    }

    /// What it tells of a moment that was read, or wasn't.
    fn tell(&mut self, moment: Result<Timestamp, Error>) -> Stamp
        ensures answer { result ≡ self.new.last }
        ensures last { MatchResult moment (λ m. IsToldOf m.nanosecond self.old.last self.new.last)
            (λ _. self.new.last ≡ self.old.last) }
    {
        let Ok(moment) = moment else {
            return self.last;
        };
        self.last = stamp_at(moment).unwrap_or(self.last);
        self.last
    }
}

impl<'a, T: time::Clock> Clock for UtcClock<'a, T> {
    ghost last = { λ clock. clock.last };

    fn now(&mut self) -> Stamp {
        self.tell(Timestamp::now(self.time))
    }

    fn millis(&self) -> u64 {
        match self.time.monotonic() {
            Ok(passed) => u64::try_from(passed.as_millis()).unwrap_or(u64::MAX),
            Err(_) => 0,
        }
    }
}
