//! The number that is expected next of the other end.

ghost use Rattle.std.specs.Prelude.{◌≡◌, ◌≤◌, ◌<◌, ◌+◌};
ghost use Rattle.resend.specs.Judging.{judged};

use crate::Judged;
use fix_tags::MAX_MESSAGE_NUMBER;
use std::marker::Model;

/// The number that is expected next of the other end, from 1 to one above the greatest.
#[derive(Clone, Copy, Debug, PartialEq, Eq)]
pub struct InSeq {
    expected: u64,
}

impl Model for InSeq {
    ghost use Rattle.std.specs.Prelude.{ℕ};
    ghost use Rattle.resend.specs.Expected.{IsExpected};

    ghost Value = { ℕ };

    ghost view = { λ s. s.expected };

    ghost invariant = { λ s. IsExpected s.expected };

    ghost inverse = { λ expected. record { expected = expected } };
}

impl InSeq {
    ghost use Rattle.resend.specs.Expected.{IsExpected};

    /// Nothing was received yet: 1 is expected.
    pub fn new() -> InSeq
        ensures { result ≡ 1 }
    {
        InSeq { expected: 1 }
    }

    /// The number expected, 1 to 999,999,999.
    pub fn expected(&self) -> u64
        ensures value { result ≡ self.now }
        ensures in_range { IsExpected self.now }
    {
        self.expected
    }

    /// How a message's number stands to the one expected. `poss_dup` is its PossDupFlag (43).
    pub fn judge(&self, number: u64, poss_dup: bool) -> Judged
        ensures { result ≡ judged self.now number poss_dup }
    {
        if number == self.expected {
            Judged::Due
        } else if number > self.expected {
            Judged::Ahead
        } else if poss_dup {
            Judged::Repeat
        } else {
            Judged::TooLow
        }
    }

    /// The message expected was taken.
    pub fn advance(&mut self)
        requires { self.old ≤ MAX_MESSAGE_NUMBER }
        ensures { self.new ≡ self.old + 1 }
    {
        self.expected += 1;
    }

    /// The messages below `number` are not sent again, and `number` is the next.
    pub fn fill_to(&mut self, number: u64)
        requires above { self.old < number }
        requires below { number ≤ MAX_MESSAGE_NUMBER + 1 }
        ensures { self.new ≡ number }
    {
        self.expected = number;
    }
}
