//! Workers in threads.

ghost use Rattle.std.specs.Prelude.{IfOk};
ghost use Rattle.session_worker.specs.Ends.{Runs, AllRan};

use crate::{RunFault, Worker, WorkerEnd};
use change_count::Stop;
use clock::Clock;
use dialect::Dialect;
use exec_collector::{Accounts, Collector};
use kept_link::Telling;
use link::Link;
use release_lock::{ReleaseLock, Run};
use std::alloc::Global;
use std::collections::VecDeque;
use std::snapshot::Snapshot;
use std::sync::Wait;
use std::thread;
use std::thread::{Promise, PromisedHandle, Threads, join_promised};

/// What the thread of a worker promises: an end of that worker.
#[derive(Drop)]
struct EndOf<D: Dialect + Drop, K: Link, C: Clock + Drop, L: Run, M: Accounts, J: Telling>(
    Snapshot<Worker<D, K, C, L, M, J>>,
);

impl<D: Dialect + Drop, K: Link, C: Clock + Drop, L: Run, M: Accounts, J: Telling> Promise<
    WorkerEnd<K, L, M, J>,
> for EndOf<D, K, C, L, M, J> {
    ghost kept_by = { λ p end. Runs (D.wording p.0.value.dialect) p.0.value.parts end };
}

/// Runs each worker in a thread of its own, and gives their ends in order. Where memory is wanted or no thread can be
/// made, it tells those that were started to give up, and gives none once they have ended.
pub fn run_all<D, K, C, L, M, J, N, R>(
    rt: &R,
    alloc: Global,
    lock: &ReleaseLock<L, N>,
    collector: &Collector<M>,
    workers: Vec<Worker<D, K, C, L, M, J>>,
    turn_limit: u64,
) -> Result<Vec<WorkerEnd<K, L, M, J>>, RunFault>
where
    D: Dialect + Drop + Send,
    K: Link + Send,
    C: Clock + Drop + Send,
    L: Run + Send + Sync,
    M: Accounts + Send + Sync,
    J: Telling + Send,
    N: Telling + Send,
    R: Threads + Wait + Sync,
    ensures { IfOk result (λ ends. AllRan D.wording workers.items ends.items) }
{
    run_all_until(
        rt,
        alloc,
        lock,
        collector,
        &Stop::new(),
        workers,
        turn_limit,
    )
}

/// The same, until they are told to stop.
pub fn run_all_until<D, K, C, L, M, J, N, R>(
    rt: &R,
    alloc: Global,
    lock: &ReleaseLock<L, N>,
    collector: &Collector<M>,
    stop: &Stop,
    workers: Vec<Worker<D, K, C, L, M, J>>,
    turn_limit: u64,
) -> Result<Vec<WorkerEnd<K, L, M, J>>, RunFault>
where
    D: Dialect + Drop + Send,
    K: Link + Send,
    C: Clock + Drop + Send,
    L: Run + Send + Sync,
    M: Accounts + Send + Sync,
    J: Telling + Send,
    N: Telling + Send,
    R: Threads + Wait + Sync,
    ensures { IfOk result (λ ends. AllRan D.wording workers.items ends.items) }
{
    thread::scope(
        thread::scope_env(),
        rt,
        |scope| -> Result<Vec<WorkerEnd<K, L, M, J>>, RunFault>
            ensures { IfOk result (λ ends. AllRan D.wording workers.items ends.items) }
        {
            let mut workers = VecDeque::from(workers);
            let mut handles = Vec::new(alloc);
            while let Some(worker) = workers.pop_front() {
                if handles.reserve(1).is_err() {
                    give_up(rt, stop, handles);
                    return Err(RunFault::OutOfMemory);
                }
                let promise = EndOf(Snapshot::of(&worker));
                match scope.spawn_with(
                    promise,
                    move || worker.run_until(rt, lock, collector, stop, turn_limit),
                ) {
                    Ok(handle) => handles.push_reserved(handle),
                    Err(_) => {
                        give_up(rt, stop, handles);
                        return Err(RunFault::NoThread);
                    }
                }
            }
            match join_promised(rt, handles) {
                Ok(ends) => Ok(ends),
                Err(refused) => {
                    join_each(rt, refused.value);
                    Err(RunFault::OutOfMemory)
                }
            }
        },
    )
}

/// Waits for each of these threads, and drops what it gives.
fn join_each<T: Drop, P: Promise<T> + Drop, R: Threads>(
    rt: &R,
    handles: Vec<PromisedHandle<T, P>>,
) {
    for handle in handles {
        drop(handle.join(rt));
    }
}

/// Tells the workers to give up, and waits for their threads.
fn give_up<T: Drop, P: Promise<T> + Drop, R: Threads>(
    rt: &R,
    stop: &Stop,
    handles: Vec<PromisedHandle<T, P>>,
) {
    stop.tell();
    stop.tell();
    join_each(rt, handles);
}
