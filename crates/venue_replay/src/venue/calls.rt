//! What the session of a venue does when it is called.

ghost use Rattle.std.specs.Prelude.{◌≡◌, OnOk, IfOk};
ghost use Rattle.session_core.specs.Calling.{connect, quiet, silent, close};
ghost use Rattle.venue_replay.specs.AtVenue.{answer_of, called, sent};
ghost use Rattle.venue_replay.specs.Ending.{ending_of, refusal_of};

use super::Venue;
use crate::frame::Frame;
use crate::keep::keep;
use crate::moment::stamp;
use crate::step_call::{StepCall, call};
use dialect::Dialect;
use session_core::{Ended, SessionFault};
use std::alloc::AllocError;

impl<D: Dialect + Drop> Venue<D> {
    /// The session connects, if it may: its Logon is written. It gives the session's refusal, if it refuses; out of
    /// memory is this call's own.
    pub fn connect(&mut self) -> Result<Option<SessionFault>, AllocError>
        ensures now { OnOk result (self.new ≡ sent self.old (connect self.old.session)) }
        ensures refused { IfOk result (λ refused. refused ≡ refusal_of (connect self.old.session)) }
    {
        match self.session.connect(&self.dialect, &stamp()) {
            Ok(bytes) => {
                let connection = self.session.connection();
                self.to_exchange.push(Frame { connection, bytes })?;
                Ok(None)
            }
            Err(SessionFault::OutOfMemory) => Err(AllocError),
            Err(fault) => Ok(Some(fault)),
        }
    }

    /// The session is called so. It gives why the connection ended, if it did, or the session's refusal; out of memory
    /// is this call's own.
    fn call(&mut self, made: StepCall) -> Result<Result<Option<Ended>, SessionFault>, AllocError>
        ensures now { OnOk result (self.new ≡ called self.old (answer_of made self.old.session)) }
        ensures ended { IfOk result (λ ended. ended ≡ ending_of (answer_of made self.old.session)) }
    {
        match call(&mut self.session, &self.dialect, made) {
            Ok(step) => {
                let connection = self.session.connection();
                keep(&mut self.to_exchange, connection, step.out.into_vec())?;
                Ok(Ok(step.ended))
            }
            Err(SessionFault::OutOfMemory) => Err(AllocError),
            Err(fault) => Ok(Err(fault)),
        }
    }

    /// Nothing was written for a while. It gives the session's refusal, if it refuses; out of memory is this call's
    /// own.
    pub fn quiet(&mut self) -> Result<Option<SessionFault>, AllocError>
        ensures now { OnOk result (self.new ≡ called self.old (quiet self.old.session)) }
        ensures refused { IfOk result (λ refused. refused ≡ refusal_of (quiet self.old.session)) }
    {
        Ok(self.call(StepCall::Quiet)?.err())
    }

    /// Nothing was heard for a while. It gives why the connection ended, if it did, or the session's refusal; out of
    /// memory is this call's own.
    pub fn silent(&mut self) -> Result<Result<Option<Ended>, SessionFault>, AllocError>
        ensures now { OnOk result (self.new ≡ called self.old (silent self.old.session)) }
        ensures ended { IfOk result (λ ended. ended ≡ ending_of (silent self.old.session)) }
    {
        self.call(StepCall::Silent)
    }

    /// The session is to close. It gives the session's refusal, if it refuses; out of memory is this call's own.
    pub fn close(&mut self) -> Result<Option<SessionFault>, AllocError>
        ensures now { OnOk result (self.new ≡ called self.old (close self.old.session)) }
        ensures refused { IfOk result (λ refused. refused ≡ refusal_of (close self.old.session)) }
    {
        Ok(self.call(StepCall::Close)?.err())
    }
}
