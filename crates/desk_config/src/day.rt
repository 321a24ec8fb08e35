//! A day in UTC.

ghost use Rattle.std.specs.Prelude.{◌≡◌, Some};
ghost use Rattle.desk_config.specs.Day.{day_of, day_text, two_digits};

use fix_tags::Stamp;
use std::fmt;

/// The last two digits of a number.
#[derive(Drop)]
struct TwoDigits(u16);

impl fmt::Display for TwoDigits {
    ghost output = { λ it. Some (two_digits it.0) };

    fn fmt<W: fmt::Write>(&self, f: &mut fmt::Formatter<W>) -> fmt::Result {
        let tens = self.0 / 10 % 10;
        let units = self.0 % 10;
        write!(f, "{tens}{units}")
    }
}

/// A day in UTC, printed as `2026-11-24`.
#[derive(Clone, Copy, Debug, PartialEq, Eq)]
pub struct Day {
    pub year: u16,
    pub month: u8,
    pub day: u8,
}

impl Day {
    /// The day of a moment.
    pub fn of(moment: &Stamp) -> Day
        ensures { result ≡ day_of moment.now }
    {
        Day {
            year: moment.year(),
            month: moment.month(),
            day: moment.day(),
        }
    }
}

impl fmt::Display for Day {
    ghost output = { λ day. Some (day_text day) };

    fn fmt<W: fmt::Write>(&self, f: &mut fmt::Formatter<W>) -> fmt::Result {
        let century = TwoDigits(self.year / 100);
        let year = TwoDigits(self.year);
        let month = TwoDigits(u16::from(self.month));
        let day = TwoDigits(u16::from(self.day));
        write!(f, "{century}{year}-{month}-{day}")
    }
}
