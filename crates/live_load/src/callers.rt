//! The callers of a day, each in a thread of its own.

ghost use Rattle.std.specs.Prelude.{◌≡◌, map, IfOk, IfErr};
ghost use Rattle.desk_venues.specs.Faults.{IsNoMismatch};
ghost use Rattle.live_load.specs.Day.{caller_of, left_of, AllCalled};

use crate::caller::{CallerEnd, call};
use crate::promise::EndOf;
use crate::watch::{Running, watch};
use crate::{LivePlan, Progress};
use desk_floor::Floor;
use desk_venues::DayFault;
use exec_collector::Accounts;
use release_lock::{CallerSeat, Run};
use std::alloc::Global;
use std::collections::VecDeque;
use std::io::Write;
use std::snapshot::Snapshot;
use std::sync::Wait;
use std::thread::{PromisedHandle, Threads, join_promised};
use std::{thread, time};

/// Runs the callers of these seats once the workers run, and watches the day meanwhile. It ends when the workers have
/// ended. Where no worker runs within ten seconds, or a thread is refused, the day is given up.
pub fn run_callers<L, M, W, R, P>(
    rt: &R,
    alloc: Global,
    floor: &Floor<L, M, W>,
    plan: LivePlan,
    seats: Vec<CallerSeat<L>>,
    progress: P,
) -> Result<Vec<CallerEnd<L>>, DayFault>
where
    L: Run + Send + Sync,
    M: Accounts + Send + Sync,
    W: Write + Drop + Send,
    R: Threads + Wait + time::Clock + Sync,
    P: Progress + Drop,
    ensures called { IfOk result (λ ends. AllCalled (map (λ s. caller_of plan s) seats.items)
        (map (λ e. left_of e.seat e.unplaced) ends.items)) }
    ensures only { IfErr result IsNoMismatch }
{
    if !floor.signals.awaits(rt, &floor.signals.workers) {
        floor.give_up();
        return Err(DayFault::NoThread);
    }
    let running = &Running::new(seats.len() as u64);
    thread::scope(
        thread::scope_env(),
        rt,
        |scope| -> Result<Vec<CallerEnd<L>>, DayFault>
            ensures { IfOk result (λ ends. AllCalled (map (λ s. caller_of plan s) seats.items)
                (map (λ e. left_of e.seat e.unplaced) ends.items)) × IfErr result IsNoMismatch }
        {
            let mut progress = progress;
            let mut seats = VecDeque::from(seats);
            let mut handles = Vec::new(alloc);
            while let Some(seat) = seats.pop_front() {
                if handles.reserve(1).is_err() {
                    floor.give_up();
                    return Err(DayFault::OutOfMemory);
                }
                let promise = EndOf(Snapshot::of(&seat), plan);
                match scope.spawn_with(
                    promise,
                    move || call(rt, alloc, floor, running, plan, seat),
                ) {
                    Ok(handle) => handles.push_reserved(handle),
                    Err(_) => {
                        floor.give_up();
                        return Err(DayFault::NoThread);
                    }
                }
            }
            watch(rt, floor, running, plan, &mut progress);
            join_callers(rt, handles)
        },
    )
}

/// Waits for the callers, and gives what they leave.
fn join_callers<L: Run, R: Threads>(
    rt: &R,
    handles: Vec<PromisedHandle<CallerEnd<L>, EndOf<L>>>,
) -> Result<Vec<CallerEnd<L>>, DayFault>
    ensures called { IfOk result (λ ends. AllCalled
        (map (λ h. caller_of h.promise.1 h.promise.0.value) handles.items)
        (map (λ e. left_of e.seat e.unplaced) ends.items)) }
    ensures only { IfErr result IsNoMismatch }
{
    match join_promised(rt, handles) {
        Ok(ends) => Ok(ends),
        Err(_) => Err(DayFault::OutOfMemory),
    }
}
