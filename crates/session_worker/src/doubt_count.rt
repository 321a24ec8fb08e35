//! The legs in doubt, as a worker tells of them.

ghost use Rattle.std.specs.Prelude.{◌≡◌, length};
ghost use Rattle.resend.specs.Window.{window};
ghost use Rattle.session_worker.specs.Doubt.{settled_before};

use session_core::Session;

/// How many legs of a session are in doubt, and up to which ordinal none is.
#[derive(Clone, Copy)]
pub(crate) struct DoubtCount {
    pub(crate) count: u64,
    pub(crate) settled: u64,
}

/// The doubts of a session whose worker took so many legs.
pub(crate) fn count_doubts(session: &Session, taken: u64) -> DoubtCount
    ensures count { result.count ≡ length (window session.now.log) }
    ensures settled { result.settled ≡ settled_before (window session.now.log) taken }
{
    let doubts = session.doubts();
    DoubtCount {
        count: doubts.len() as u64,
        settled: match doubts.first() {
            Some(first) => first.ordinal.saturating_sub(1),
            None => taken,
        },
    }
}
