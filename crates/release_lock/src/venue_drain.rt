//! The end of a venue's ring that its worker holds.

ghost use Rattle.std.specs.Prelude.{◌≡◌, ◌<◌, length, min, IfSome, MatchOption};
ghost use Rattle.release_lock.specs.Queues.{with_popped};

use crate::Run;
use leg::{PlacedLeg, VenueId};
use std::marker::{Model, PhantomData};
use std::sync::Wait;
use venue_queue::Drain;

/// The end of a venue's ring that its worker holds. It is of the ring that the run names for the venue. Contracts see
/// the venue and the legs popped.
#[derive(Drop)]
pub struct VenueDrain<L: Run> {
    pub(crate) venue: VenueId,
    pub(crate) drain: Drain,
    pub(crate) of: PhantomData<L>,
}

impl<L: Run> Model for VenueDrain<L> {
    ghost use Rattle.std.specs.Prelude.{◌≡◌, slice_get, Some};
    ghost use Rattle.release_lock.specs.Queues.{DrainParts};

    ghost Value = { DrainParts };

    ghost view = { λ d. record { venue = d.venue; popped = d.drain.legs } };

    ghost invariant = { λ d. slice_get L.queues d.venue ≡ Some d.drain.table };
}

impl<L: Run> VenueDrain<L> {
    /// The venue, which is one of the run's.
    pub fn venue(&self) -> VenueId
        ensures value { result ≡ self.now.venue }
        ensures there { result < length L.queues }
    {
        self.venue
    }

    /// The next leg. `None` only where the ring was empty at some moment of the call. It may wait for another thread
    /// that is in the way.
    pub fn pop(&mut self, rt: &impl Wait) -> Option<PlacedLeg>
        ensures { MatchOption result (self.new ≡ self.old) (λ leg. self.new ≡ with_popped self.old leg) }
    {
        self.drain.pop(rt)
    }

    /// The next leg, while fewer than `count` were popped in all; else `None`, and the ring isn't touched.
    pub fn pop_to(&mut self, rt: &impl Wait, count: u64) -> Option<PlacedLeg>
        ensures leg { MatchOption result (self.new ≡ self.old) (λ leg. self.new ≡ with_popped self.old leg) }
        ensures bound { IfSome result (λ _. length self.old.popped < count) }
    {
        self.drain.pop_to(rt, count)
    }

    /// How many legs were popped, up to the greatest number of its type.
    pub fn popped(&self) -> u64
        ensures { result ≡ min (length self.now.popped) 18446744073709551615 }
    {
        self.drain.popped()
    }
}
