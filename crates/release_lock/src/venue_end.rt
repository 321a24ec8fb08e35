//! What a venue's worker gives back.

ghost use Rattle.std.specs.Prelude.{◌≡◌};

use crate::{Run, VenueDrain};
use leg::{PlacedLeg, VenueId};
use std::marker::Model;

/// What a venue's worker gives back: its drain, and all that it popped, in order. Contracts see the venue and the legs.
#[derive(Drop)]
pub struct VenueEnd<L: Run> {
    pub(crate) drain: VenueDrain<L>,
    pub(crate) taken: Vec<PlacedLeg>,
}

impl<L: Run> Model for VenueEnd<L> {
    ghost use Rattle.std.specs.Prelude.{◌≡◌};
    ghost use Rattle.release_lock.specs.Queues.{Took};

    ghost Value = { Took };

    ghost view = { λ end. record { venue = end.drain.venue; taken = end.taken.items } };

    ghost invariant = { λ end. end.taken.items ≡ end.drain.popped };
}

impl<L: Run> VenueEnd<L> {
    /// A drain, and the legs that were popped from it.
    pub fn new(drain: VenueDrain<L>, taken: Vec<PlacedLeg>) -> VenueEnd<L>
        requires { taken.items ≡ drain.popped }
        ensures { result ≡ record { venue = drain.venue; taken = taken.items } }
    {
        VenueEnd { drain, taken }
    }

    /// The venue.
    pub fn venue(&self) -> VenueId
        ensures { result ≡ self.now.venue }
    {
        self.drain.venue()
    }

    /// The legs, in order.
    pub fn taken(&self) -> &[PlacedLeg]
        ensures { result.now ≡ self.now.taken }
    {
        self.taken.as_slice()
    }
}
