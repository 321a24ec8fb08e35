//! What a worker took from its venue's ring.

ghost use Rattle.std.specs.Prelude.{◌≡◌, ◌⊎◌, ◌<◌, ◌↔◌, [], length, min, slice_get, true, IsTrue, MatchResult, Some};
ghost use Rattle.leg.specs.Answering.{Answers};
ghost use Rattle.sweep_release.specs.History.{KeptDesk as ADesk, without_room};
ghost use Rattle.release_lock.specs.Held.{IsHeldBack};
ghost use Rattle.release_lock.specs.Locked.{Replays};
ghost use Rattle.release_lock.specs.Queues.{raise};
ghost use Rattle.session_worker.specs.Taking.{Raises, TakesNext};

use kept_link::Telling;
use leg::{PlacedLeg, VenueId};
use release_lock::{LockedDesk, ReleaseLock, Run, VenueDrain, VenueEnd};
use std::alloc::{AllocError, Global};
use std::marker::Model;
use std::sync::Wait;
use sweep_release::GateFault;

/// The end of a venue's ring, and all legs that were popped from it, in order.
#[derive(Drop)]
pub(crate) struct Takings<L: Run> {
    drain: VenueDrain<L>,
    legs: Vec<PlacedLeg>,
}

impl<L: Run> Model for Takings<L> {
    ghost use Rattle.std.specs.Prelude.{◌≡◌};
    ghost use Rattle.release_lock.specs.Queues.{Took};

    ghost Value = { Took };

    ghost view = { λ t. record { venue = t.drain.venue; taken = t.legs.items } };

    ghost invariant = { λ t. t.legs.items ≡ t.drain.popped };
}

impl<L: Run> Takings<L> {
    /// A drain from which nothing was popped yet.
    pub(crate) fn new(alloc: Global, drain: VenueDrain<L>) -> Takings<L>
        requires { drain.popped ≡ [] }
        ensures { result ≡ record { venue = drain.venue; taken = [] } }
    {
        Takings {
            drain,
            legs: Vec::new(alloc),
        }
    }

    /// The venue, which is one of the run's.
    pub(crate) fn venue(&self) -> VenueId
        ensures value { result ≡ self.now.venue }
        ensures there { result < length L.queues }
    {
        self.drain.venue()
    }

    /// How many legs were taken, up to the greatest number of its type.
    pub(crate) fn count(&self) -> u64
        ensures { result ≡ min (length self.now.taken) 18446744073709551615 }
    {
        self.drain.popped()
    }

    /// How many legs were taken.
    pub(crate) fn len(&self) -> usize
        ensures { result ≡ length self.now.taken }
    {
        self.legs.len()
    }

    /// Whether the leg taken at a place, from 0, is this one.
    pub(crate) fn is_leg(&self, place: usize, placed: &PlacedLeg) -> bool
        ensures is { IsTrue result ↔ (slice_get self.now.taken place ≡ Some placed.now) }
        ensures below { result ≡ true → place < 18446744073709551615 }
    {
        match self.legs.get(place) {
            Some(leg) => is_same(leg, placed),
            None => false,
        }
    }

    /// Puts the venue's gate up, once every leg released to it was taken and the venue isn't held.
    pub(crate) fn raise<N: Telling>(
        &self,
        rt: &impl Wait,
        lock: &ReleaseLock<L, N>,
    ) -> Result<(), GateFault>
        ensures { (before : ADesk) × (after : ADesk) × Replays before × Replays after
            × ((Answers GateFault.OutOfMemory (without_room before)
            (raise (without_room before) self.now.venue (length self.now.taken)) result (without_room after))
            ⊎ IsHeldBack self.now.venue before result after) }
    {
        lock.raise(rt, &self.drain)
    }

    /// Puts it up at a desk that is out of its lock, and says whether it is.
    pub(crate) fn raise_in(&self, desk: &mut LockedDesk<L>) -> bool
        ensures { Raises self.now desk.old result desk.new }
    {
        desk.raise(&self.drain).is_ok()
    }

    /// The next leg, if the ring has one; there is room for it before it is popped. The only refusal is out of memory.
    pub(crate) fn next(&mut self, rt: &impl Wait) -> Result<Option<PlacedLeg>, AllocError>
        ensures { MatchResult result (TakesNext self.old self.new) (λ _. self.new ≡ self.old) }
    {
        self.legs.reserve(1)?;
        match self.drain.pop(rt) {
            Some(leg) => {
                self.legs.push_reserved(copy_of(&leg));
                Ok(Some(leg))
            }
            None => Ok(None),
        }
    }

    /// The same, while fewer than `count` were taken in all; else none.
    pub(crate) fn next_to(
        &mut self,
        rt: &impl Wait,
        count: u64,
    ) -> Result<Option<PlacedLeg>, AllocError>
        ensures { MatchResult result (TakesNext self.old self.new) (λ _. self.new ≡ self.old) }
    {
        self.legs.reserve(1)?;
        match self.drain.pop_to(rt, count) {
            Some(leg) => {
                self.legs.push_reserved(copy_of(&leg));
                Ok(Some(leg))
            }
            None => Ok(None),
        }
    }

    /// What the worker gives back of it.
    pub(crate) fn into_end(self) -> VenueEnd<L>
        ensures { result ≡ self }
    {
        let Takings { drain, legs } = self;
        VenueEnd::new(drain, legs)
    }
}

/// Whether two legs are one.
fn is_same(leg: &PlacedLeg, other: &PlacedLeg) -> bool
    ensures { IsTrue result ↔ (leg.now ≡ other.now) }
{
    leg == other
}

/// A copy of a leg, which takes no memory.
fn copy_of(placed: &PlacedLeg) -> PlacedLeg
    ensures { result ≡ placed.now }
{
    PlacedLeg {
        ordinal: placed.ordinal,
        leg: placed.leg.clone().unwrap(),
    }
}
