//! What a day begins with.

use crate::DayFault;
use clock::StoppedClock;
use dialect::Plain;
use exchange_sim::{MemoryLink, MemoryPlan, Plan};
use exec_collector::Accounts;
use link::Link;
use release_lock::Run;
use session_worker::{Pace, Worker};
use std::alloc::Global;
use trial::{MAX_NUMBER, Post, TrialFault, far_end, near_end, stopped_clock};

/// Of each order six shares are traded, and nothing is lost or cut.
pub const TRADES_SIX: Plan = Plan {
    fill: 6,
    cut_after: 0,
    lose: 0,
};

/// A link in memory to a new exchange B, whose numbers go as far as may be.
pub fn memory_link(
    alloc: Global,
    plan: MemoryPlan,
) -> Result<MemoryLink<Plain, StoppedClock>, TrialFault> {
    let clock = stopped_clock()?;
    Ok(MemoryLink::new(alloc, Plain, clock, far_end(MAX_NUMBER)?, plan))
}

/// The worker of a new post's venue. Its session is A.
pub fn worker_of<K: Link, L: Run, M: Accounts>(
    alloc: Global,
    link: K,
    max_number: u64,
    pace: Pace,
    post: Post<L, M>,
) -> Result<Worker<Plain, K, StoppedClock, L, M>, DayFault> {
    let Post { drain, seat } = post;
    if drain.popped() != 0 || seat.venue() != drain.venue() {
        return Err(DayFault::Trial(TrialFault::Missing));
    }
    let config = near_end(max_number)?;
    let clock = stopped_clock()?;
    Ok(Worker::new(alloc, Plain, link, clock, config, seat, drain, pace))
}
