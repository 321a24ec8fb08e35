//! What happens, event by event.

ghost use Rattle.std.specs.Prelude.{◌≡◌, ◌<◌, nat_lt, length, IfOk, IfSome, OnOk};
ghost use Rattle.schedule.specs.Growing.{named};
ghost use Rattle.schedule.specs.Happening.{happens};
ghost use Rattle.replay.specs.Telling.{told};

use super::World;
use crate::EventOutcome;
use dialect::Dialect;
use leg::VenueId;
use schedule::Event;
use std::alloc::AllocError;

/// The venue that an event is at, if it is at one: a release is at none.
pub fn venue_of(event: &Event) -> Option<VenueId>
    ensures { result ≡ named event.now }
{
    match event {
        Event::Release(_) => None,
        Event::GateUp(venue) => Some(*venue),
        Event::GateDown(venue) => Some(*venue),
        Event::Drop(venue) => Some(*venue),
        Event::Take(venue) => Some(*venue),
        Event::Connect(venue) => Some(*venue),
        Event::ToExchange { venue, .. } => Some(*venue),
        Event::ToDispatcher { venue, .. } => Some(*venue),
        Event::Break(venue) => Some(*venue),
        Event::ExchangeBreak(venue) => Some(*venue),
        Event::Act { venue, .. } => Some(*venue),
        Event::Quiet(venue) => Some(*venue),
        Event::Silent(venue) => Some(*venue),
        Event::Close(venue) => Some(*venue),
        Event::Abandon(venue) => Some(*venue),
    }
}

impl<D: Dialect + Drop> World<D> {
    /// Whether there is such a venue.
    fn has(&self, venue: VenueId) -> bool
        ensures { result ≡ nat_lt venue (length self.now.venues) }
    {
        usize::from(venue.number()) < self.venues.len()
    }

    /// An event happens: what it told, besides the world after it. At a venue that isn't there it does nothing. The
    /// only refusal is out of memory, and the world is then of no use: a part of the event may have happened.
    #[tactic(auto, using(crate::proofs::Nowhere::nowhere, crate::proofs::Nowhere::nothing_is_told))]
    pub fn happen(&mut self, event: Event) -> Result<EventOutcome, AllocError>
        ensures world { OnOk result (self.new ≡ happens self.old event) }
        ensures told { IfOk result (λ answer. answer ≡ told self.old event) }
    {
        if let Some(venue) = venue_of(&event) {
            if !self.has(venue) {
                return Ok(EventOutcome::NOTHING);
            }
        }
        self.happen_here(event)
    }

    /// What an event does at no venue, or at one that is there.
    fn happen_here(&mut self, event: Event) -> Result<EventOutcome, AllocError>
        requires { IfSome (named event) (λ venue. venue < length self.old.venues) }
        ensures world { OnOk result (self.new ≡ happens self.old event) }
        ensures told { IfOk result (λ answer. answer ≡ told self.old event) }
    {
        match event {
            Event::Release(sweep) => return self.release(sweep),
            Event::GateUp(venue) => return self.gate_up(venue),
            Event::GateDown(venue) => self.gate_down(venue),
            Event::Drop(venue) => self.drop_next(venue),
            Event::Take(venue) => return self.take(venue),
            Event::Connect(venue) => return self.connect(venue),
            Event::ToExchange { venue, frame } => self.deliver_to_exchange(venue, frame)?,
            Event::ToDispatcher { venue, frame } => {
                return self.deliver_to_dispatcher(venue, frame);
            }
            Event::Break(venue) => self.break_off(venue),
            Event::ExchangeBreak(venue) => self.drop_connection(venue),
            Event::Act { venue, act } => return self.act(venue, &act),
            Event::Quiet(venue) => return self.quiet(venue),
            Event::Silent(venue) => return self.silent(venue),
            Event::Close(venue) => return self.close(venue),
            Event::Abandon(venue) => self.abandon(venue),
        }
        Ok(EventOutcome::NOTHING)
    }
}
