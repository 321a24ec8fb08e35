//! What a turn costs a worker that has nothing to do: it logs on over a link in memory, and then takes its turns.

use clock::UtcClock;
use dialect::Plain;
use exchange_sim::{MemoryLink, MemoryPlan, Plan};
use exec_collector::Accounts;
use release_lock::Run;
use session_worker::{EndReason, Pace, Worker};
use std::alloc::Global;
use std::io::Write;
use std::sync::Wait;
use std::time::Clock;
use trial::{Floor, MAX_NUMBER, Post, Trial, TrialFault, far_end, near_end, on_floor};

/// A worker that writes no Heartbeat and no fence of its own accord.
const PACE: Pace = Pace::Turns {
    quiet_turns: u64::MAX,
    silent_turns: u64::MAX,
};

/// An exchange that gets no order, so that it has nothing to trade.
const PLAN: Plan = Plan {
    fill: 0,
    cut_after: 0,
    lose: 0,
};

/// The number that the exchange expects behind a Logon and a fence.
const BEHIND_THE_FENCE: u64 = 3;

/// A worker takes so many turns, of which the first ones log it on. Refused where it didn't log on in them, or wrote
/// anything later.
#[derive(Drop)]
struct Idle {
    alloc: Global,
    turns: u64,
}

impl<R: Wait + Clock> Trial<R> for Idle {
    type End = Result<(), TrialFault>;

    fn run<L: Run, M: Accounts>(self, rt: &R, floor: Floor<L, M>) -> Result<(), TrialFault> {
        let Idle { alloc, turns } = self;
        let (near, far) = (near_end(MAX_NUMBER)?, far_end(MAX_NUMBER)?);
        let Floor {
            lock,
            collector,
            mut posts,
            ..
        } = floor;
        let Post { drain, seat } = posts.pop().ok_or(TrialFault::Missing)?;
        if drain.popped() != 0 || seat.venue() != drain.venue() {
            return Err(TrialFault::Missing);
        }
        let plan = MemoryPlan::faultless(PLAN);
        let link = MemoryLink::new(alloc, Plain, UtcClock::new(rt), far, plan);
        let clock = UtcClock::new(rt);
        let worker = Worker::new(alloc, Plain, link, clock, near, seat, drain, PACE);
        let end = worker.run(rt, &lock, &collector, turns);
        if end.reason != EndReason::TurnLimit
            || end.link.exchange().expected() != BEHIND_THE_FENCE
        {
            return Err(TrialFault::Refused);
        }
        Ok(())
    }
}

/// A worker of one venue takes so many turns in which there is nothing to do.
pub fn run_turns<R: Wait + Clock, W: Write>(
    rt: &R,
    alloc: Global,
    turns: u64,
    out: &mut W,
) -> Result<(), TrialFault> {
    on_floor(rt, alloc, 1, Idle { alloc, turns })??;
    writeln!(out, "turns {turns}")?;
    Ok(())
}
