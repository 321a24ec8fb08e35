//! A sweep: orders that are placed together or not at all.

ghost use Rattle.std.specs.Prelude.{◌≡◌, ◌↔◌, length, IsTrue};

use crate::{Terms, VenueId};
use std::marker::Model;

/// One order of a sweep that has no number yet, and the venue that it is for.
#[derive(Clone, Debug, PartialEq, Eq, Drop)]
pub struct Routed {
    pub venue: VenueId,
    pub terms: Terms,
}

impl Routed {
    ghost use Rattle.leg.specs.Sweep.{IsRouted};

    /// Does nothing when it runs. Its contract tells a caller that every part is in range.
    pub fn in_range(&self)
        ensures { IsRouted self.now }
    {
        let _ = self.venue.number();
        let _ = self.terms.shares();
    }
}

/// The legs of a sweep, in the order of their places.
#[derive(Debug, Drop)]
pub struct Legs {
    in_order: Vec<Routed>,
}

impl Model for Legs {
    ghost use Rattle.std.specs.Prelude.{List};
    ghost use Rattle.leg.specs.declared.sweep.Routed.{Routed};

    ghost Value = { List Routed };

    ghost view = { λ legs. legs.in_order.items };
}

impl Legs {
    /// The legs of a list, whose memory they keep.
    pub fn new(in_order: Vec<Routed>) -> Legs
        ensures { result ≡ in_order.items }
    {
        Legs { in_order }
    }

    /// The list again, in the memory that it came with.
    pub fn into_vec(self) -> Vec<Routed>
        ensures { result.items ≡ self }
    {
        self.in_order
    }

    pub fn as_slice(&self) -> &[Routed]
        ensures { result.now ≡ self.now }
    {
        self.in_order.as_slice()
    }

    pub fn len(&self) -> usize
        ensures { result ≡ length self.now }
    {
        self.in_order.len()
    }

    pub fn is_empty(&self) -> bool
        ensures { IsTrue result ↔ (length self.now ≡ 0) }
    {
        self.in_order.is_empty()
    }
}

/// The orders that a caller hands in, each for one venue. A sweep of no legs or of more than 32 may be made; it is
/// the desk that refuses it.
#[derive(Debug, Drop)]
pub struct Sweep {
    pub legs: Legs,
}
