//! When a message was logged.

ghost use Rattle.std.specs.Prelude.{◌≡◌};
ghost use Rattle.log_rules.specs.Moment.{elapsed, moment_of};

use fix_tags::Stamp;

/// How many milliseconds a day has.
const DAY: u64 = 86_400_000;

/// When a message was logged: a number that tells days apart, and the milliseconds of the day.
#[derive(Clone, Copy, Debug, PartialEq, Eq)]
pub struct Moment {
    pub day: u64,
    pub milli: u64,
}

impl Moment {
    pub fn of(stamp: &Stamp) -> Moment
        ensures { result ≡ moment_of stamp.now }
    {
        let months = u64::from(stamp.year()) * 12 + u64::from(stamp.month());
        let minutes = u64::from(stamp.hour()) * 60 + u64::from(stamp.minute());
        let seconds = minutes * 60 + u64::from(stamp.second());
        Moment {
            day: months * 31 + u64::from(stamp.day()),
            milli: seconds * 1000 + u64::from(stamp.milli()),
        }
    }

    /// How many milliseconds passed until a later moment, less than a day. Where the clock went back, or for a day or
    /// more, none.
    pub fn until(&self, later: Moment) -> u64
        ensures { result ≡ elapsed self.now later }
    {
        if self.day == later.day {
            return later.milli.saturating_sub(self.milli);
        }
        if later.milli < self.milli {
            return DAY.saturating_sub(self.milli - later.milli);
        }
        0
    }
}
