//! What the session of a venue does with a leg.

ghost use Rattle.std.specs.Prelude.{◌≡◌, OnOk, IfOk};
ghost use Rattle.session_core.specs.Calling.{send_leg};
ghost use Rattle.venue_replay.specs.AtVenue.{sent};
ghost use Rattle.venue_replay.specs.Taking.{outcome_of};

use super::Venue;
use crate::frame::Frame;
use crate::moment::stamp;
use crate::sending::Sending;
use dialect::Dialect;
use leg::Leg;
use session_core::SessionFault;
use std::alloc::AllocError;

impl<D: Dialect + Drop> Venue<D> {
    /// The session sends a leg under its ordinal, if it may: its order is written. The only refusal of this call is
    /// out of memory.
    pub fn send(&mut self, ordinal: u64, leg: &Leg) -> Result<Sending, AllocError>
        ensures now { OnOk result (self.new ≡ sent self.old (send_leg self.old.session ordinal leg.now)) }
        ensures outcome { IfOk result (λ outcome. outcome ≡ outcome_of (send_leg self.old.session ordinal leg.now)) }
    {
        leg.in_range();
        match self.session.send_leg(&self.dialect, ordinal, leg, &stamp()) {
            Ok(bytes) => {
                let connection = self.session.connection();
                self.to_exchange.push(Frame { connection, bytes })?;
                Ok(Sending::Sent)
            }
            Err(SessionFault::OutOfMemory) => Err(AllocError),
            Err(SessionFault::NumbersSpent) => Ok(Sending::NumbersSpent),
            Err(fault) => Ok(Sending::Refused(fault)),
        }
    }
}
