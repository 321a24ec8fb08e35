//! A call of a session is made.

ghost use Rattle.std.specs.Prelude.{◌≡◌, IfOk, IsOkUnless};
ghost use Rattle.session_core.specs.Trial.{unless_refused, step_with, StepAdded, called, Adds};

use dialect::Dialect;
use fix_tags::Stamp;
use session_core::{Frames, LegIds, Session, SessionCall, SessionFault, Step};
use std::alloc::Global;

/// What a call answers, where it wasn't refused. Out of memory is no refusal here.
fn given<T: Drop>(answer: Result<T, SessionFault>) -> Result<Option<T>, SessionFault>
    ensures { result ≡ unless_refused answer }
{
    match answer {
        Ok(given) => Ok(Some(given)),
        Err(SessionFault::OutOfMemory) => Err(SessionFault::OutOfMemory),
        Err(_) => Ok(None),
    }
}

/// The step that has this frame, and tells nothing else.
fn step_of(alloc: Global, frame: Vec<u8>) -> Result<Step, SessionFault>
    ensures ok { IfOk result (λ step. step ≡ step_with frame.items) }
    ensures refusal { IsOkUnless result SessionFault.OutOfMemory }
{
    let mut frames = Vec::new(alloc);
    frames.push(frame)?;
    Ok(Step {
        out: Frames::new(frames),
        note: None,
        withdrawn: LegIds::new(Vec::new(alloc)),
        ended: None,
    })
}

/// The step of a call that gives one frame, where it wasn't refused.
fn step_given(
    alloc: Global,
    answer: Result<Vec<u8>, SessionFault>,
) -> Result<Option<Step>, SessionFault>
    ensures { StepAdded (unless_refused answer) result }
{
    match given(answer)? {
        Some(frame) => Ok(Some(step_of(alloc, frame)?)),
        None => Ok(None),
    }
}

/// Makes a call, and gives the step that it adds, if it adds one. A refused call adds none; out of memory is none of
/// its refusals, and is answered.
pub(crate) fn step_made<D: Dialect>(
    alloc: Global,
    session: &mut Session,
    dialect: &D,
    stamp: &Stamp,
    call: &SessionCall<'_>,
) -> Result<Option<Step>, SessionFault>
    ensures { Adds
        (D.wording dialect.now).encoding stamp.now
        (called (D.wording dialect.now).decoding session.old call.now)
        result session.new }
{
    match call {
        SessionCall::Connect => step_given(alloc, session.connect(dialect, stamp)),
        SessionCall::SendLeg(ordinal, leg) => {
            step_given(alloc, session.send_leg(dialect, *ordinal, leg, stamp))
        }
        SessionCall::Receive(envelope) => given(session.receive(dialect, envelope, stamp)),
        SessionCall::Quiet => given(session.quiet(dialect, stamp)),
        SessionCall::Silent => given(session.silent(dialect, stamp)),
        SessionCall::Close => given(session.close(dialect, stamp)),
        SessionCall::Confirm => {
            session.confirm();
            Ok(None)
        }
        SessionCall::Malformed => {
            let _ = session.malformed();
            Ok(None)
        }
        SessionCall::Broken => {
            session.broken();
            Ok(None)
        }
        SessionCall::Abandon => {
            session.abandon();
            Ok(None)
        }
    }
}
