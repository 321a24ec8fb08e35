//! What happens when a venue's exchange acts.

ghost use Rattle.std.specs.Prelude.{◌≡◌, ◌<◌, length, IfOk, OnOk};
ghost use Rattle.schedule.specs.declared.event.Event.TheVariants as event;
ghost use Rattle.schedule.specs.Happening.{happens};
ghost use Rattle.replay.specs.Telling.{told};

use super::World;
use crate::EventOutcome;
use dialect::Dialect;
use leg::VenueId;
use schedule::Act;
use std::alloc::AllocError;

impl<D: Dialect + Drop> World<D> {
    /// The exchange does something by itself, if it may.
    pub(crate) fn act(&mut self, venue: VenueId, act: &Act) -> Result<EventOutcome, AllocError>
        requires { venue < length self.old.venues }
        ensures world { OnOk result (self.new ≡ happens self.old (event.Act venue act.now)) }
        ensures told { IfOk result (λ answer. answer ≡ told self.old (event.Act venue act.now)) }
    {
        let refused = self.venues[usize::from(venue.number())].act(act)?;
        Ok(EventOutcome::by_exchange(refused))
    }
}
