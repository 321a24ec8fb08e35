//! The calls of a session that give a step.

ghost use Rattle.session_core.specs.CallResult.{IsStep, Gives};
ghost use Rattle.venue_replay.specs.AtVenue.{answer_of};
ghost use Rattle.venue_replay.specs.Network.{moment};

use crate::moment::stamp;
use dialect::Dialect;
use session_core::{Session, SessionFault, Step};

/// A call of a session that gives a step.
#[derive(Clone, Copy, Debug, PartialEq, Eq)]
pub(crate) enum StepCall {
    /// Nothing was written for a while.
    Quiet,
    /// Nothing was heard for a while.
    Silent,
    /// The session is to close.
    Close,
}

/// Calls a session so.
pub(crate) fn call<D: Dialect>(
    session: &mut Session,
    dialect: &D,
    made: StepCall,
) -> Result<Step, SessionFault>
    ensures { Gives (IsStep (D.wording dialect.now).encoding moment)
        session.old (answer_of made session.old) result session.new }
{
    let at = stamp();
    match made {
        StepCall::Quiet => session.quiet(dialect, &at),
        StepCall::Silent => session.silent(dialect, &at),
        StepCall::Close => session.close(dialect, &at),
    }
}
