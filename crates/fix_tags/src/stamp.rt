//! Time stamps.

ghost use Rattle.std.specs.Prelude.{◌≡◌};
ghost use Rattle.fix_tags.specs.Stamp.{StampParts, IsStamp, stamp_of};

use std::marker::Model;

/// A moment in UTC, to the millisecond (FIX 4.4 Volume 1, data type UTCTimestamp).
#[derive(Clone, Copy, Debug, PartialEq, Eq)]
pub struct Stamp {
    year: u16,
    month: u8,
    day: u8,
    hour: u8,
    minute: u8,
    second: u8,
    milli: u16,
}

impl Model for Stamp {
    ghost use Rattle.fix_tags.specs.Stamp.{StampParts, IsStamp};

    ghost Value = { StampParts };

    ghost view = { λ s. record {
      year = s.year;
      month = s.month;
      day = s.day;
      hour = s.hour;
      minute = s.minute;
      second = s.second;
      milli = s.milli;
    } };

    ghost invariant = { λ s. IsStamp (record {
      year = s.year;
      month = s.month;
      day = s.day;
      hour = s.hour;
      minute = s.minute;
      second = s.second;
      milli = s.milli;
    }) };

    ghost inverse = { λ s. record {
      year = s.year;
      month = s.month;
      day = s.day;
      hour = s.hour;
      minute = s.minute;
      second = s.second;
      milli = s.milli;
    } };
}

impl Stamp {
    /// The moment, or none where a field is out of its range: years 0 to 9999, months 1 to 12, days 1 to 31,
    /// seconds 0 to 60 (60 is a leap second). The day isn't compared with the month.
    pub fn new(
        year: u16,
        month: u8,
        day: u8,
        hour: u8,
        minute: u8,
        second: u8,
        milli: u16,
    ) -> Option<Stamp>
        ensures { result ≡ stamp_of year month day hour minute second milli }
    {
        if year > 9999 || !(1..=12).contains(&month) || !(1..=31).contains(&day) {
            return None;
        }
        if hour > 23 || minute > 59 || second > 60 || milli > 999 {
            return None;
        }
        Some(Stamp {
            year,
            month,
            day,
            hour,
            minute,
            second,
            milli,
        })
    }

    /// The year, 0 to 9999.
    #[inline]
    pub fn year(&self) -> u16
        ensures value { result ≡ self.now.year }
        ensures within { IsStamp self.now }
    {
        self.year
    }

    /// The month, 1 to 12.
    #[inline]
    pub fn month(&self) -> u8
        ensures value { result ≡ self.now.month }
        ensures within { IsStamp self.now }
    {
        self.month
    }

    /// The day of the month, 1 to 31.
    #[inline]
    pub fn day(&self) -> u8
        ensures value { result ≡ self.now.day }
        ensures within { IsStamp self.now }
    {
        self.day
    }

    /// The hour, 0 to 23.
    #[inline]
    pub fn hour(&self) -> u8
        ensures value { result ≡ self.now.hour }
        ensures within { IsStamp self.now }
    {
        self.hour
    }

    /// The minute, 0 to 59.
    #[inline]
    pub fn minute(&self) -> u8
        ensures value { result ≡ self.now.minute }
        ensures within { IsStamp self.now }
    {
        self.minute
    }

    /// The second, 0 to 60.
    #[inline]
    pub fn second(&self) -> u8
        ensures value { result ≡ self.now.second }
        ensures within { IsStamp self.now }
    {
        self.second
    }

    /// The millisecond, 0 to 999.
    #[inline]
    pub fn milli(&self) -> u16
        ensures value { result ≡ self.now.milli }
        ensures within { IsStamp self.now }
    {
        self.milli
    }
}
