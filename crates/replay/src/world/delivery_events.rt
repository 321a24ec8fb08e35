//! What happens when a frame comes to one end of a venue.

ghost use Rattle.std.specs.Prelude.{◌≡◌, ◌<◌, length, IfOk, OnOk};
ghost use Rattle.schedule.specs.declared.event.Event.TheVariants as event;
ghost use Rattle.schedule.specs.Happening.{happens};
ghost use Rattle.replay.specs.Telling.{told};

use super::World;
use crate::EventOutcome;
use crate::telling::tell;
use dialect::Dialect;
use leg::VenueId;
use schedule::FrameNumber;
use std::alloc::AllocError;

impl<D: Dialect + Drop> World<D> {
    /// A frame written to the exchange comes to it, if there is such a frame.
    pub(crate) fn deliver_to_exchange(
        &mut self,
        venue: VenueId,
        frame: FrameNumber,
    ) -> Result<(), AllocError>
        requires { venue < length self.old.venues }
        ensures { OnOk result (self.new ≡ happens self.old (event.ToExchange venue frame)) }
    {
        self.venues[usize::from(venue.number())].deliver_to_exchange(frame)
    }

    /// A frame written by the exchange comes to the session, if it was written in the session's present connection. The
    /// book is told of it, and the note then confirmed.
    pub(crate) fn deliver_to_dispatcher(
        &mut self,
        venue: VenueId,
        frame: FrameNumber,
    ) -> Result<EventOutcome, AllocError>
        requires { venue < length self.old.venues }
        ensures world { OnOk result (self.new ≡ happens self.old (event.ToDispatcher venue frame)) }
        ensures told { IfOk result (λ answer. answer ≡ told self.old (event.ToDispatcher venue frame)) }
    {
        let at = usize::from(venue.number());
        let Some(inbound) = self.venues[at].hear(frame)? else {
            return Ok(EventOutcome::NOTHING);
        };
        let answer = tell(&mut self.book, venue, inbound.withdrawn, &inbound.note)?;
        self.venues[at].confirm(inbound.note)?;
        Ok(EventOutcome {
            answer,
            ended: inbound.ended,
            ..EventOutcome::NOTHING
        })
    }
}
