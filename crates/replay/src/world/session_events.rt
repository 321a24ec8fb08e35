//! What happens when a venue's session is called.

ghost use Rattle.std.specs.Prelude.{◌≡◌, ◌<◌, length, IfOk, OnOk};
ghost use Rattle.schedule.specs.declared.event.Event.TheVariants as event;
ghost use Rattle.schedule.specs.Happening.{may_connect, happens};
ghost use Rattle.replay.specs.Telling.{told};

use super::World;
use crate::EventOutcome;
use dialect::Dialect;
use leg::VenueId;
use std::alloc::AllocError;
use sweep_release::Gate;

impl<D: Dialect + Drop> World<D> {
    /// The session connects, if the gate isn't up and nothing is placed.
    pub(crate) fn connect(&mut self, venue: VenueId) -> Result<EventOutcome, AllocError>
        requires { venue < length self.old.venues }
        ensures world { OnOk result (self.new ≡ happens self.old (event.Connect venue)) }
        ensures told { IfOk result (λ answer. answer ≡ told self.old (event.Connect venue)) }
    {
        if !self.may_connect(venue) {
            return Ok(EventOutcome::NOTHING);
        }
        let refused = self.venues[usize::from(venue.number())].connect()?;
        Ok(EventOutcome::by_session(refused))
    }

    /// The session wrote nothing for a while.
    pub(crate) fn quiet(&mut self, venue: VenueId) -> Result<EventOutcome, AllocError>
        requires { venue < length self.old.venues }
        ensures world { OnOk result (self.new ≡ happens self.old (event.Quiet venue)) }
        ensures told { IfOk result (λ answer. answer ≡ told self.old (event.Quiet venue)) }
    {
        let refused = self.venues[usize::from(venue.number())].quiet()?;
        Ok(EventOutcome::by_session(refused))
    }

    /// The session heard nothing for a while.
    pub(crate) fn silent(&mut self, venue: VenueId) -> Result<EventOutcome, AllocError>
        requires { venue < length self.old.venues }
        ensures world { OnOk result (self.new ≡ happens self.old (event.Silent venue)) }
        ensures told { IfOk result (λ answer. answer ≡ told self.old (event.Silent venue)) }
    {
        let ended = self.venues[usize::from(venue.number())].silent()?;
        Ok(EventOutcome::by_silence(ended))
    }

    /// The session is to close; where that isn't refused the gate is shut.
    pub(crate) fn close(&mut self, venue: VenueId) -> Result<EventOutcome, AllocError>
        requires { venue < length self.old.venues }
        ensures world { OnOk result (self.new ≡ happens self.old (event.Close venue)) }
        ensures told { IfOk result (λ answer. answer ≡ told self.old (event.Close venue)) }
    {
        let refused = self.venues[usize::from(venue.number())].close()?;
        match refused {
            Some(fault) => Ok(EventOutcome::by_session(Some(fault))),
            None => {
                self.desk.shut(venue);
                Ok(EventOutcome::NOTHING)
            }
        }
    }

    /// Whether a session may connect: the gate isn't up and nothing is placed.
    pub(crate) fn may_connect(&self, venue: VenueId) -> bool
        requires { venue < length self.now.venues }
        ensures { result ≡ may_connect self.now.desk venue }
    {
        match self.desk.gate(venue) {
            Gate::Up => false,
            Gate::Down => self.desk.placed(venue) == 0,
            Gate::Shut => self.desk.placed(venue) == 0,
        }
    }
}
