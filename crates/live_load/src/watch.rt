//! What the thread that starts the callers does while they run.

use crate::order::SHARES;
use crate::{LivePlan, Progress, SoFar};
use desk_floor::Floor;
use exec_collector::Accounts;
use release_lock::Run;
use std::io::Write;
use std::sync::Wait;
use std::sync::atomic::{AtomicU64, Ordering};
use std::thread;
use std::time::{Clock, Duration};

/// How many milliseconds pass between two looks at a day.
const LOOK_MILLIS: u64 = 1;

/// How many looks are a second at least.
const LOOKS: u64 = 1_000;

/// How many looks pass in which nothing is resolved, until what is open is given up.
const MOST_IDLE_LOOKS: u64 = 10_000;

/// How many callers still run.
#[derive(Drop)]
pub struct Running(AtomicU64);

/// How long nothing was resolved.
#[derive(Clone, Copy)]
struct Idle {
    resolved: u64,
    looks: u64,
}

impl Running {
    pub fn new(callers: u64) -> Running {
        Running(AtomicU64::new(callers))
    }

    /// A caller has ended.
    pub fn end_one(&self) {
        self.0.fetch_sub(1, Ordering::SeqCst);
    }

    /// Whether all have ended.
    fn is_over(&self) -> bool {
        self.0.load(Ordering::SeqCst) == 0
    }
}

impl Idle {
    /// At one more look so many shares are resolved.
    fn look(&mut self, resolved: u64) {
        if resolved == self.resolved {
            self.looks = self.looks.saturating_add(1);
        } else {
            self.looks = 0;
        }
        self.resolved = resolved;
    }

    /// Whether nothing was resolved for ten seconds.
    fn is_over(self) -> bool {
        self.looks >= MOST_IDLE_LOOKS
    }
}

/// How far a day is.
fn so_far<L: Run, M: Accounts, W: Write + Drop>(
    rt: &impl Wait,
    floor: &Floor<L, M, W>,
    plan: LivePlan,
) -> SoFar {
    let each = SHARES.saturating_mul(u64::from(plan.venues)).max(1);
    SoFar {
        placed: floor.signals.placed() / each,
        resolved: floor.collector.resolved(rt),
    }
}

/// The day closes, once the callers have ended. It waits until no share is open, but no longer than ten seconds in
/// which nothing is resolved; where it is to be cut short it doesn't wait.
fn close<L: Run, M: Accounts, W: Write + Drop>(
    rt: &impl Wait,
    floor: &Floor<L, M, W>,
    plan: LivePlan,
    idle: &mut Idle,
) {
    if !floor.signals.is_closing() {
        floor.begin_close();
    }
    if floor.signals.are_stopped() {
        return;
    }
    idle.look(floor.collector.resolved(rt));
    if plan.cuts_short || idle.is_over() {
        floor.stop();
    }
}

/// Watches a day until its workers have ended, and tells once a second how far it is. Once the callers have ended it
/// closes. Where it is stopped, callers give up what isn't placed, and what is open isn't waited for.
pub fn watch<L: Run, M: Accounts, W: Write + Drop, R: Wait + Clock, P: Progress>(
    rt: &R,
    floor: &Floor<L, M, W>,
    callers: &Running,
    plan: LivePlan,
    progress: &mut P,
) {
    let mut idle = Idle {
        resolved: 0,
        looks: 0,
    };
    for look in 0..u64::MAX {
        if floor.signals.is_ending() {
            return;
        }
        if !floor.signals.are_stopped() && progress.is_stopped() {
            floor.begin_close();
            floor.stop();
        }
        if callers.is_over() {
            close(rt, floor, plan, &mut idle);
        }
        thread::sleep(rt, Duration::from_millis(LOOK_MILLIS));
        if look % LOOKS == LOOKS - 1 {
            progress.tell(so_far(rt, floor, plan));
        }
    }
}
