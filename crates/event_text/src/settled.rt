//! Which legs are told as settled.

ghost use Rattle.std.specs.Prelude.{◌≡◌, ◌<◌, IfOk, OnOk, slice_index, slice_set};
ghost use Rattle.event_text.specs.Deeds.{is_settled, taken_phrase};
ghost use Rattle.event_text.specs.Says.{says};
ghost use Rattle.event_text.specs.Crash.{settled_again};
ghost use Rattle.event_text.specs.Step.{none_settled, settled_from, taken_from};

use crate::say::say;
use dialect::Dialect;
use leg::{Leg, LegState, VenueId};
use replay::World;
use std::alloc::{AllocError, Global};

/// How many venues there may be.
const VENUES: usize = 16;

/// How many legs of each venue are told as settled, in the order of their ordinals.
#[derive(Clone, Copy, Debug)]
pub struct Settled {
    told: [usize; VENUES],
}

impl Settled {
    /// None yet.
    pub fn new() -> Settled
        ensures { result ≡ none_settled }
    {
        Settled { told: [0; VENUES] }
    }

    /// How many legs of a venue were told.
    fn at(&self, venue: VenueId) -> usize
        ensures { result ≡ slice_index self.now.told venue }
    {
        self.told[usize::from(venue.number())]
    }

    /// So many legs of a venue are told.
    fn set(&mut self, venue: VenueId, count: usize)
        ensures { self.new ≡ record { told = slice_set self.old.told venue count } }
    {
        self.told[usize::from(venue.number())] = count;
    }

    /// Those that are told where the dispatcher started again, and this is the world after it. A leg that was told as
    /// taken may be in doubt again, and is then told once more; one that the start withdrew isn't told again.
    pub fn start_again<D: Dialect + Drop>(world: &World<D>) -> Settled
        ensures { result ≡ settled_again world.now }
    {
        let mut told = [0; VENUES];
        for number in 0..VENUES {
            told[number] = settled_at(world, number);
        }
        Settled { told }
    }

    /// Says of which legs of a venue it is settled that the exchange has them, and wasn't told before.
    pub(crate) fn say<D: Dialect + Drop>(
        &mut self,
        alloc: Global,
        text: &mut Vec<u8>,
        world: &World<D>,
        venue: VenueId,
    ) -> Result<(), AllocError>
        ensures said { OnOk result (text.new.items
            ≡ says text.old.items (taken_from world.now venue (slice_index self.old.told venue))) }
        ensures told { OnOk result (self.new ≡ record {
          told = slice_set self.old.told venue
              (settled_from world.now venue (slice_index self.old.told venue));
        }) }
    {
        let place = self.at(venue);
        let settled = say_taken(alloc, text, world, venue, place)?;
        self.set(venue, settled);
        Ok(())
    }
}

/// Says a leg that is taken, and tells whether the leg is settled.
fn say_leg(
    alloc: Global,
    text: &mut Vec<u8>,
    state: Option<LegState>,
    leg: &Leg,
) -> Result<bool, AllocError>
    ensures said { OnOk result (text.new.items ≡ says text.old.items (taken_phrase state leg.now)) }
    ensures settled { IfOk result (λ settled. settled ≡ is_settled state) }
{
    match state {
        Some(LegState::Taken) => {
            let id = leg.id;
            say(text, format!(in alloc; "{id} taken")?.as_bytes())?;
            Ok(true)
        }
        Some(LegState::Withdrawn) => Ok(true),
        _ => Ok(false),
    }
}

/// Says which legs of a venue are taken, from a place on up to the first that isn't settled. It gives that one's place.
fn say_taken<D: Dialect + Drop>(
    alloc: Global,
    text: &mut Vec<u8>,
    world: &World<D>,
    venue: VenueId,
    place: usize,
) -> Result<usize, AllocError>
    ensures said { OnOk result (text.new.items ≡ says text.old.items (taken_from world.now venue place)) }
    ensures place { IfOk result (λ settled. settled ≡ settled_from world.now venue place) }
{
    let legs = world.released(venue);
    for at in place..legs.len() {
        let state = world.state(venue, at as u64 + 1);
        if !say_leg(alloc, text, state, &legs[at])? {
            return Ok(at);
        }
    }
    Ok(place.max(legs.len()))
}

/// How many legs of a venue of this number are settled, up to the first that isn't.
fn settled_at<D: Dialect + Drop>(world: &World<D>, number: usize) -> usize
    requires { number < 16 }
    ensures { result ≡ settled_from world.now number 0 }
{
    match VenueId::new(number as u8) {
        Ok(venue) => settled_count(world, venue),
        Err(_) => 0,
    }
}

/// How many legs of a venue are settled, up to the first that isn't.
fn settled_count<D: Dialect + Drop>(world: &World<D>, venue: VenueId) -> usize
    ensures { result ≡ settled_from world.now venue 0 }
{
    let legs = world.released(venue).len();
    for at in 0..legs {
        if !has_settled(world.state(venue, at as u64 + 1)) {
            return at;
        }
    }
    legs
}

/// Whether it is settled what became of a leg in this state.
fn has_settled(state: Option<LegState>) -> bool
    ensures { result ≡ is_settled state }
{
    match state {
        Some(LegState::Taken) => true,
        Some(LegState::Withdrawn) => true,
        _ => false,
    }
}
