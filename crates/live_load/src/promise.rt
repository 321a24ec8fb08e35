//! What the thread of a caller promises.

use crate::LivePlan;
use crate::caller::CallerEnd;
use release_lock::{CallerSeat, Run};
use std::snapshot::Snapshot;
use std::thread::Promise;

/// What the thread of a caller promises: an end of the caller that had this seat.
#[derive(Drop)]
pub struct EndOf<L: Run>(pub Snapshot<CallerSeat<L>>, pub LivePlan);

impl<L: Run> Promise<CallerEnd<L>> for EndOf<L> {
    ghost use Rattle.live_load.specs.Day.{Called, caller_of, left_of};

    ghost kept_by = { λ p e. Called (caller_of p.1 p.0.value) (left_of e.seat e.unplaced) };
}
