//! A number from a least to a greatest one.

ghost use Rattle.std.specs.Prelude.{◌≡◌, ◌≤◌, Some, decimal};
ghost use Rattle.fix_tags.specs.Digits.{within};

use std::fmt;
use std::marker::Model;

/// A number from LEAST to MOST.
#[derive(Clone, Copy, Debug, PartialEq, Eq)]
pub struct Within<const LEAST: u64, const MOST: u64> {
    number: u64,
}

impl<const LEAST: u64, const MOST: u64> Model for Within<LEAST, MOST> {
    ghost use Rattle.std.specs.Prelude.{ℕ, ◌≤◌};

    ghost Value = { ℕ };

    ghost view = { λ it. it.number };

    ghost invariant = { λ it. (LEAST ≤ it.number) × (it.number ≤ MOST) };

    ghost inverse = { λ n. record { number = n } };
}

impl<const LEAST: u64, const MOST: u64> Within<LEAST, MOST> {
    /// The number, or none where it is out of range.
    pub fn new(number: u64) -> Option<Within<LEAST, MOST>>
        ensures { result ≡ within LEAST MOST number }
    {
        if LEAST <= number && number <= MOST {
            Some(Within { number })
        } else {
            None
        }
    }

    /// A number that is in range.
    pub fn of(number: u64) -> Within<LEAST, MOST>
        requires least { LEAST ≤ number }
        requires most { number ≤ MOST }
        ensures { result ≡ number }
    {
        Within { number }
    }

    /// The number, from LEAST to MOST.
    pub fn get(&self) -> u64
        ensures value { result ≡ self.now }
        ensures least { LEAST ≤ result }
        ensures most { result ≤ MOST }
    {
        self.number
    }
}

impl<const LEAST: u64, const MOST: u64> fmt::Display for Within<LEAST, MOST> {
    ghost output = { λ number. Some (decimal number) };

    fn fmt<W: fmt::Write>(&self, f: &mut fmt::Formatter<W>) -> fmt::Result {
        let number = self.get();
        write!(f, "{number}")
    }
}
