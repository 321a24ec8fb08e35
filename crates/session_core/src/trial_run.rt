//! A session over any list of calls.

ghost use Rattle.std.specs.Prelude.{◌≡◌, IfOk, IsOkUnless};
ghost use Rattle.session_core.specs.Session.{new_session};
ghost use Rattle.session_core.specs.Trial.{unless_refused, step_with, StepAdded, called, after_calls, steps_of, Adds, Tries, KeepsRules};

use crate::session::Session;
use crate::session_call::SessionCall;
use crate::session_fault::SessionFault;
use crate::step::{Frames, LegIds, Step};
use dialect::Dialect;
use fix_tags::{Config, Stamp};
use std::alloc::Global;

/// What a call answers, where it wasn't refused. Out of memory is no refusal here.
fn given<T: Drop>(answer: Result<T, SessionFault>) -> Result<Option<T>, SessionFault>
    ensures { result ≡ unless_refused answer }
{
    match answer {
        Ok(given) => Ok(Some(given)),
        Err(SessionFault::OutOfMemory) => Err(SessionFault::OutOfMemory),
        Err(_) => Ok(None),
    }
}

/// The step that has this frame, and tells nothing else.
fn step_of(alloc: Global, frame: Vec<u8>) -> Result<Step, SessionFault>
    ensures ok { IfOk result (λ step. step ≡ step_with frame.items) }
    ensures refusal { IsOkUnless result SessionFault.OutOfMemory }
{
    let mut frames = Vec::new(alloc);
    frames.push(frame)?;
    Ok(Step {
        out: Frames::new(frames),
        note: None,
        withdrawn: LegIds::new(Vec::new(alloc)),
        ended: None,
    })
}

/// The step of a call that gives one frame, where it wasn't refused.
fn step_given(
    alloc: Global,
    answer: Result<Vec<u8>, SessionFault>,
) -> Result<Option<Step>, SessionFault>
    ensures { StepAdded (unless_refused answer) result }
{
    match given(answer)? {
        Some(frame) => Ok(Some(step_of(alloc, frame)?)),
        None => Ok(None),
    }
}

impl Session {
    /// Makes a call, and gives the step that it adds, if it adds one. A refused call adds none; out of memory is none
    /// of its refusals, and is answered.
    fn make<D: Dialect>(
        &mut self,
        dialect: &D,
        stamp: &Stamp,
        call: &SessionCall<'_>,
    ) -> Result<Option<Step>, SessionFault>
        ensures { Adds
            (D.wording dialect.now).encoding stamp.now
            (called (D.wording dialect.now).decoding self.old call.now)
            result self.new }
    {
        match call {
            SessionCall::Connect => step_given(self.alloc(), self.connect(dialect, stamp)),
            SessionCall::SendLeg(ordinal, leg) => {
                step_given(self.alloc(), self.send_leg(dialect, *ordinal, leg, stamp))
            }
            SessionCall::Receive(envelope) => given(self.receive(dialect, envelope, stamp)),
            SessionCall::Quiet => given(self.quiet(dialect, stamp)),
            SessionCall::Silent => given(self.silent(dialect, stamp)),
            SessionCall::Close => given(self.close(dialect, stamp)),
            SessionCall::Confirm => {
                self.confirm();
                Ok(None)
            }
            SessionCall::Malformed => {
                let _ = self.malformed();
                Ok(None)
            }
            SessionCall::Broken => {
                self.broken();
                Ok(None)
            }
            SessionCall::Abandon => {
                self.abandon();
                Ok(None)
            }
        }
    }
}

/// Makes the calls in their order on a new session, and gives the session after them and the steps. `connect` and
/// `send_leg` add a step whose one frame is theirs, `confirm`, `malformed`, `broken` and `abandon` none; a refused call
/// changes nothing and adds none. Only out of memory, S04, ends the run.
pub fn trial<D: Dialect>(
    alloc: Global,
    config: Config,
    dialect: &D,
    stamp: &Stamp,
    calls: &[SessionCall<'_>],
) -> Result<(Session, Vec<Step>), SessionFault>
    ensures run { Tries
        (D.wording dialect.now).encoding stamp.now
        (steps_of (D.wording dialect.now).decoding
        (new_session config) calls.now)
        (after_calls (D.wording dialect.now).decoding
        (new_session config) calls.now)
        result }
    ensures rules { KeepsRules
        (D.wording dialect.now).decoding
        (new_session config) calls.now }
{
    let mut session = Session::new(alloc, config);
    let mut steps = Vec::new(alloc);
    for call in calls {
        if let Some(step) = session.make(dialect, stamp, call)? {
            steps.push(step)?;
        }
    }
    Ok((session, steps))
}
