//! What happens at the desk and in the book alone.

ghost use Rattle.std.specs.Prelude.{◌≡◌, ◌<◌, length, IfOk, OnOk};
ghost use Rattle.schedule.specs.declared.event.Event.TheVariants as event;
ghost use Rattle.schedule.specs.Happening.{happens};
ghost use Rattle.sweep_release.specs.Desk.{drop_next};
ghost use Rattle.replay.specs.Telling.{told};

use super::World;
use crate::EventOutcome;
use dialect::Dialect;
use leg::{PlacedLeg, Sweep, VenueId};
use std::alloc::AllocError;
use sweep_release::{Gate, GateFault, ReleaseFault, place};

impl<D: Dialect + Drop> World<D> {
    /// A sweep is released at the desk and opened in the book, or neither.
    pub(crate) fn release(&mut self, sweep: Sweep) -> Result<EventOutcome, AllocError>
        ensures world { OnOk result (self.new ≡ happens self.old (event.Release sweep)) }
        ensures told { IfOk result (λ answer. answer ≡ told self.old (event.Release sweep)) }
    {
        let placed = place(&mut self.desk, &mut self.book, sweep);
        match placed {
            Err(ReleaseFault::OutOfMemory) => Err(AllocError),
            _ => Ok(EventOutcome::by_release(placed)),
        }
    }

    /// The gate of a venue whose session is up goes up, if it may.
    pub(crate) fn gate_up(&mut self, venue: VenueId) -> Result<EventOutcome, AllocError>
        requires { venue < length self.old.venues }
        ensures world { OnOk result (self.new ≡ happens self.old (event.GateUp venue)) }
        ensures told { IfOk result (λ answer. answer ≡ told self.old (event.GateUp venue)) }
    {
        if !self.at(venue).is_up() {
            return Ok(EventOutcome::NOTHING);
        }
        match self.desk.gate_up(venue) {
            Err(GateFault::OutOfMemory) => Err(AllocError),
            put => Ok(EventOutcome::by_gate(put)),
        }
    }

    /// The gate of a venue goes down.
    pub(crate) fn gate_down(&mut self, venue: VenueId)
        requires { venue < length self.old.venues }
        ensures { self.new ≡ happens self.old (event.GateDown venue) }
    {
        self.desk.gate_down(venue);
    }

    /// The next leg of a venue whose gate isn't up is dropped, and withdrawn.
    pub(crate) fn drop_next(&mut self, venue: VenueId)
        requires { venue < length self.old.venues }
        ensures { self.new ≡ happens self.old (event.Drop venue) }
    {
        if let Some(placed) = self.desk.drop_next(venue) {
            // A leg that the book has as moved stays as it is.
            let _ = self.book.withdraw(placed.leg.id);
        }
    }

    /// The next leg of a venue that would be dropped: there is none while the gate is up.
    pub(crate) fn leg_to_drop(&self, venue: VenueId) -> Option<PlacedLeg>
        requires { venue < length self.now.venues }
        ensures { result ≡ (drop_next self.now.desk venue).0 }
    {
        match self.desk.gate(venue) {
            Gate::Up => None,
            Gate::Down => self.desk.next_leg(venue),
            Gate::Shut => self.desk.next_leg(venue),
        }
    }
}
