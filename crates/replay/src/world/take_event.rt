//! What happens when a leg is taken.

ghost use Rattle.std.specs.Prelude.{◌≡◌, ◌<◌, length, IfOk, OnOk};
ghost use Rattle.schedule.specs.declared.event.Event.TheVariants as event;
ghost use Rattle.schedule.specs.Happening.{happens};
ghost use Rattle.replay.specs.Telling.{told};
ghost use Rattle.venue_replay.specs.Taking.{leg_to_send};

use super::World;
use crate::EventOutcome;
use dialect::Dialect;
use leg::{PlacedLeg, VenueId};
use session_core::SessionFault;
use std::alloc::AllocError;
use sweep_release::Gate;
use venue_replay::Sending;

impl<D: Dialect + Drop> World<D> {
    /// The next leg of a venue whose gate and session are up leaves the desk and is sent. Where the session has no
    /// number left for it the leg is withdrawn in the book.
    pub(crate) fn take(&mut self, venue: VenueId) -> Result<EventOutcome, AllocError>
        requires { venue < length self.old.venues }
        ensures world { OnOk result (self.new ≡ happens self.old (event.Take venue)) }
        ensures told { IfOk result (λ answer. answer ≡ told self.old (event.Take venue)) }
    {
        let Some(placed) = self.leg_to_send(venue) else {
            return Ok(EventOutcome::NOTHING);
        };
        let at = usize::from(venue.number());
        // The leg leaves the desk only once its frame is kept: out of memory leaves it placed.
        match self.venues[at].send(placed.ordinal, &placed.leg)? {
            Sending::Sent => {
                self.desk.take(venue);
                Ok(EventOutcome::NOTHING)
            }
            Sending::NumbersSpent => {
                self.desk.take(venue);
                // A leg that the book has as moved stays as it is.
                let _ = self.book.withdraw(placed.leg.id);
                Ok(EventOutcome::by_session(Some(SessionFault::NumbersSpent)))
            }
            Sending::Refused(fault) => Ok(EventOutcome::by_session(Some(fault))),
        }
    }

    /// The next leg of a venue that can be taken and sent: there is none unless both the session and the gate are up.
    pub(crate) fn leg_to_send(&self, venue: VenueId) -> Option<PlacedLeg>
        requires { venue < length self.now.venues }
        ensures { result ≡ leg_to_send self.now venue }
    {
        if !self.at(venue).is_up() {
            return None;
        }
        match self.desk.gate(venue) {
            Gate::Up => self.desk.next_leg(venue),
            Gate::Down => None,
            Gate::Shut => None,
        }
    }
}
