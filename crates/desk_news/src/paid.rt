//! What was paid for shares.

ghost use Rattle.std.specs.Prelude.{◌≡◌, Some};
ghost use Rattle.std.specs.Option.{option_map};
ghost use Rattle.desk_news.specs.Paid.{average_of, disputed_text, paid_sweep_text, paid_text, unpriced_text, worth_text};

use crate::sweep_parts::SweepParts;
use exact_price::{Exact, average};
use leg_worth::Worth;
use std::fmt;

/// The greatest value of which an average is told, in hundred-millionths. That of a sweep is far below.
const MOST_VALUE: u128 = 100_000_000_000_000_000_000_000_000_000_000_000_000;

/// What was paid for the shares of a sweep or a leg, and what is disputed of them.
#[derive(Clone, Copy, Debug, PartialEq, Eq)]
pub struct Paid {
    /// What was paid in its trades that no bust names, in hundred-millionths (10^-8) of the currency's unit.
    pub worth: Worth,
    /// The shares of those trades.
    pub filled: u64,
    /// The shares of the trades that its exchanges told and that the book didn't take: they are none of its parts.
    pub disputed: u64,
}

/// A sweep with what was paid for it.
#[derive(Clone, Copy, Debug, PartialEq, Eq)]
pub struct PaidSweep {
    pub parts: SweepParts,
    pub paid: Paid,
}

impl Paid {
    /// The average price of the shares whose price is known, rounded to the nearest hundred-millionth, a half up; none
    /// where there are no such shares.
    pub fn average(&self) -> Option<Exact>
        ensures { option_map (λ exact. exact.0) result ≡ average_of self.now }
    {
        let shares = self.filled.saturating_sub(self.worth.unpriced);
        if shares == 0 || self.worth.value > MOST_VALUE {
            return None;
        }
        Some(average(self.worth.value, shares))
    }
}

/// What was paid, where an average is known.
#[derive(Clone, Copy)]
struct WorthText(Paid);

impl fmt::Display for WorthText {
    ghost output = { λ text. Some (worth_text (average_of text.0) text.0.worth.value) };

    fn fmt<W: fmt::Write>(&self, f: &mut fmt::Formatter<W>) -> fmt::Result {
        let value = Exact(self.0.worth.value);
        match self.0.average() {
            Some(average) => write!(f, " paid {value} average {average}"),
            None => Ok(()),
        }
    }
}

/// The shares whose price isn't known, where there are some.
#[derive(Clone, Copy)]
struct UnpricedText(u64);

impl fmt::Display for UnpricedText {
    ghost output = { λ text. Some (unpriced_text text.0) };

    fn fmt<W: fmt::Write>(&self, f: &mut fmt::Formatter<W>) -> fmt::Result {
        let shares = self.0;
        if shares == 0 {
            return Ok(());
        }
        write!(f, " price unknown {shares}")
    }
}

/// The shares that are disputed, where there are some.
#[derive(Clone, Copy)]
struct DisputedText(u64);

impl fmt::Display for DisputedText {
    ghost output = { λ text. Some (disputed_text text.0) };

    fn fmt<W: fmt::Write>(&self, f: &mut fmt::Formatter<W>) -> fmt::Result {
        let shares = self.0;
        if shares == 0 {
            return Ok(());
        }
        write!(f, " disputed {shares}")
    }
}

impl fmt::Display for Paid {
    ghost output = { λ paid. Some (paid_text paid) };

    fn fmt<W: fmt::Write>(&self, f: &mut fmt::Formatter<W>) -> fmt::Result {
        let worth = WorthText(*self);
        let unpriced = UnpricedText(self.worth.unpriced);
        let disputed = DisputedText(self.disputed);
        write!(f, "{worth}{unpriced}{disputed}")
    }
}

impl fmt::Display for PaidSweep {
    ghost output = { λ sweep. Some (paid_sweep_text sweep) };

    fn fmt<W: fmt::Write>(&self, f: &mut fmt::Formatter<W>) -> fmt::Result {
        let parts = self.parts;
        let paid = self.paid;
        write!(f, "{parts}{paid}")
    }
}
