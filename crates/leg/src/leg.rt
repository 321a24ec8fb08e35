//! A leg: one order of a sweep.

ghost use Rattle.std.specs.Prelude.{Some};

use crate::{LegId, Terms};
use std::fmt;

/// One order of a sweep, under its number.
#[derive(Clone, Debug, PartialEq, Eq, Drop)]
pub struct Leg {
    pub id: LegId,
    pub terms: Terms,
}

impl Leg {
    ghost use Rattle.leg.specs.Leg.{IsLeg};

    /// Does nothing when it runs. Its contract tells a caller that every part of the leg is in range.
    pub fn in_range(&self)
        ensures { IsLeg self.now }
    {
        let _ = self.id.sweep();
        let _ = self.terms.shares();
    }
}

impl fmt::Display for Leg {
    ghost use Rattle.leg.specs.Leg.{leg_text};

    ghost output = { λ leg. Some (leg_text leg) };

    fn fmt<W: fmt::Write>(&self, f: &mut fmt::Formatter<W>) -> fmt::Result {
        let id = self.id;
        let symbol = self.terms.symbol();
        let side = self.terms.side();
        let shares = self.terms.shares();
        let price = self.terms.price();
        write!(f, "{id} {symbol} {side} {shares} {price}")
    }
}
