//! How far a world had come when an event came.

ghost use Rattle.std.specs.Prelude.{◌≡◌, IfOk};
ghost use Rattle.event_text.specs.Before.{at_venue, before_of, leg_due};

use crate::idle::{Idle, gate_at};
use dialect::Dialect;
use leg::{LegId, VenueId};
use replay::{World, venue_of};
use schedule::Event;
use session_core::Phase;
use std::alloc::{AllocError, Global};
use sweep_release::Gate;

/// How far a world had come when an event came. What there is more of afterwards, the event did.
#[derive(Clone, Copy, Debug)]
pub struct Before {
    pub(crate) book_entries: usize,
    /// Why nothing comes of the event, if nothing does.
    pub(crate) idle: Option<Idle>,
    /// How far the venue of the event had come, if it is at one.
    pub(crate) at: Option<AtVenue>,
}

/// How far a venue had come.
#[derive(Clone, Copy, Debug)]
pub(crate) struct AtVenue {
    pub(crate) venue: VenueId,
    pub(crate) phase: Option<Phase>,
    pub(crate) gate: Gate,
    pub(crate) left: usize,
    /// The leg that leaves the desk next.
    pub(crate) leg_due: Option<LegId>,
    pub(crate) given: usize,
    pub(crate) accepted: usize,
    pub(crate) made: usize,
    pub(crate) is_closed: bool,
    pub(crate) frames_to: usize,
    pub(crate) frames_from: usize,
}

impl Before {
    /// How far a world has come at the venue of this event, and in the book. The only refusal is out of memory.
    pub fn of<D: Dialect + Drop>(
        alloc: Global,
        world: &World<D>,
        event: &Event,
    ) -> Result<Before, AllocError>
        ensures { IfOk result (λ before. before ≡ before_of world.now event.now) }
    {
        let idle = Idle::of(alloc, world, event)?;
        Ok(Before {
            book_entries: world.book().history().len(),
            idle,
            at: match venue_of(event) {
                Some(venue) => Some(AtVenue::of(world, venue)),
                None => None,
            },
        })
    }
}

impl AtVenue {
    fn of<D: Dialect + Drop>(world: &World<D>, venue: VenueId) -> AtVenue
        ensures { result ≡ at_venue world.now venue }
    {
        AtVenue {
            venue,
            phase: world.phase(venue),
            gate: gate_at(world.desk(), venue),
            left: world.desk().left(venue),
            leg_due: leg_due(world, venue),
            given: world.given(venue).len(),
            accepted: world.accepted(venue).len(),
            made: world.made(venue).len(),
            is_closed: world.closed_at(venue).is_some(),
            frames_to: world.frames_to(venue).len(),
            frames_from: world.frames_from(venue).len(),
        }
    }
}

/// The leg that leaves the desk next for a venue.
fn leg_due<D: Dialect + Drop>(world: &World<D>, venue: VenueId) -> Option<LegId>
    ensures { result ≡ leg_due world.now venue }
{
    let left = world.desk().left(venue);
    match world.released(venue).get(left) {
        Some(leg) => Some(leg.id),
        None => None,
    }
}
