//! The threads of a day.

ghost use Rattle.std.specs.Prelude.{◌≡◌, map, IfOk, IfErr};
ghost use Rattle.desk_venues.specs.Faults.{IsNoMismatch};
ghost use Rattle.desk_venues.specs.Starts.{any_wording};
ghost use Rattle.session_worker.specs.Ends.{AllRan};
ghost use Rattle.session_worker.specs.Places.{place};

use clock::Clock;
use day_log::{FileWriter, write_until};
use desk_floor::Floor;
use desk_serve::{Cast, Ended, PageServer};
use desk_talk::{Callers, keep};
use desk_venues::{DayFault, Serve, run_workers};
use exec_collector::Accounts;
use kept_link::Telling;
use link::Link;
use release_lock::Run;
use session_worker::{Worker, WorkerEnd};
use std::alloc::{AllocError, Global};
use std::collections::VecDeque;
use std::fs::File;
use std::io::Write;
use std::net::TcpStream;
use std::sync::Wait;
use std::thread::{JoinHandle, Threads, join};
use std::{thread, time};
use venue_words::VenueDialect;

/// Runs a day, beside those who call: its exchanges, the servers of its page, the writer of its logs and its workers,
/// each in a thread of its own, and its keeper in this one. A worker takes so many turns at most in which there is
/// nothing to do. Once the workers have ended the others are stopped, and the callers look that the day is over; the
/// writer writes what waits before it ends. Where a thread is refused, those that run are told so.
pub fn in_threads<X, K, C, L, M, W, J, R>(
    rt: &R,
    alloc: Global,
    floor: &Floor<L, M, W, J>,
    callers: &Callers,
    cast: Cast<X, K, C, L, M, J>,
    turn_limit: u64,
) -> Result<Ended<K, L, M, J>, DayFault>
where
    X: Serve + Drop + Send,
    K: Link + Send,
    C: Clock + Drop + Send,
    L: Run + Send + Sync,
    M: Accounts + Send + Sync,
    W: Write + Drop + Send,
    J: Telling + Send,
    R: Threads + Wait + time::Clock + Sync,
    ensures ran { IfOk result (λ ended. AllRan any_wording cast.workers.items ended.workers.items) }
    ensures workers { IfOk result (λ ended. map (λ e. place e.parts) ended.workers.items
        ≡ map (λ w. place w.parts) cast.workers.items) }
    ensures only { IfErr result IsNoMismatch }
{
    let Cast {
        exchanges,
        workers,
        servers,
        writers,
    } = cast;
    let (served, ended) = join(
        rt,
        || run_servers(rt, alloc, floor, exchanges, servers, writers),
        || -> Result<Vec<WorkerEnd<K, L, M, J>>, DayFault>
            ensures ran { IfOk result (λ ends. AllRan any_wording workers.items ends.items) }
            ensures workers { IfOk result (λ ends. map (λ e. place e.parts) ends.items
                ≡ map (λ w. place w.parts) workers.items) }
            ensures only { IfErr result IsNoMismatch }
        { run_dispatcher(rt, alloc, floor, callers, workers, turn_limit) },
    );
    let followers = served?;
    let workers = ended?;
    Ok(Ended { workers, followers })
}

/// Runs the exchanges, the servers of the page and the writer of the logs until they are stopped, and gives the clients
/// that followed the day to its end. The only refusals are out of memory and of threads.
fn run_servers<X, L, M, W, J, R>(
    rt: &R,
    alloc: Global,
    floor: &Floor<L, M, W, J>,
    exchanges: Vec<X>,
    servers: Vec<PageServer>,
    writers: Vec<FileWriter<File>>,
) -> Result<Vec<TcpStream>, DayFault>
where
    X: Serve + Drop + Send,
    L: Run + Send + Sync,
    M: Accounts + Send + Sync,
    W: Write + Drop + Send,
    J: Telling + Send,
    R: Threads + Wait + time::Clock + Sync,
    ensures { IfErr result IsNoMismatch }
{
    thread::scope(
        thread::scope_env(),
        rt,
        |scope| -> Result<Vec<TcpStream>, DayFault>
            ensures { IfErr result IsNoMismatch }
        {
            if !writers.is_empty() {
                let writer = scope.spawn(move || write_until(rt, writers, &floor.signals.is_over));
                if writer.is_err() {
                    floor.give_up();
                    return Err(DayFault::NoThread);
                }
            }
            let mut exchanges = VecDeque::from(exchanges);
            let mut handles = Vec::new(alloc);
            while let Some(exchange) = exchanges.pop_front() {
                if handles.reserve(1).is_err() {
                    floor.give_up();
                    return Err(DayFault::OutOfMemory);
                }
                match scope.spawn(move || serve_exchange(floor, exchange)) {
                    Ok(handle) => handles.push_reserved(handle),
                    Err(_) => {
                        floor.give_up();
                        return Err(DayFault::NoThread);
                    }
                }
            }
            let mut servers = VecDeque::from(servers);
            let mut pages = Vec::new(alloc);
            while let Some(server) = servers.pop_front() {
                if pages.reserve(1).is_err() {
                    floor.give_up();
                    return Err(DayFault::OutOfMemory);
                }
                match scope.spawn(move || server.serve(rt, alloc, floor)) {
                    Ok(page) => pages.push_reserved(page),
                    Err(_) => {
                        floor.give_up();
                        return Err(DayFault::NoThread);
                    }
                }
            }
            floor.signals.exchanges.tell();
            join_exchanges(rt, handles)?;
            Ok(join_pages(rt, alloc, pages))
        },
    )
}

/// Serves an exchange's clients until it is stopped. Where it wants memory the day closes.
fn serve_exchange<X: Serve, L: Run, M: Accounts, W: Write + Drop, J: Telling>(
    floor: &Floor<L, M, W, J>,
    exchange: X,
) -> Result<(), AllocError> {
    let served = exchange.serve(&floor.signals.is_over);
    if served.is_err() {
        floor.begin_close();
        floor.stop();
    }
    served
}

/// Runs the dispatcher once the exchanges are served: its workers and its keeper. Once both have ended the exchanges
/// are stopped, and the callers look how the day stands. Where the exchanges aren't served the day is given up.
fn run_dispatcher<K, C, L, M, W, J, R>(
    rt: &R,
    alloc: Global,
    floor: &Floor<L, M, W, J>,
    callers: &Callers,
    workers: Vec<Worker<VenueDialect, K, C, L, M, J>>,
    turn_limit: u64,
) -> Result<Vec<WorkerEnd<K, L, M, J>>, DayFault>
where
    K: Link + Send,
    C: Clock + Drop + Send,
    L: Run + Send + Sync,
    M: Accounts + Send + Sync,
    W: Write + Drop + Send,
    J: Telling + Send,
    R: Threads + Wait + time::Clock + Sync,
    ensures ran { IfOk result (λ ends. AllRan any_wording workers.items ends.items) }
    ensures workers { IfOk result (λ ends. map (λ e. place e.parts) ends.items
        ≡ map (λ w. place w.parts) workers.items) }
    ensures only { IfErr result IsNoMismatch }
{
    if !floor.signals.awaits(rt, &floor.signals.exchanges) {
        floor.give_up();
        floor.finish();
        return Err(DayFault::NoThread);
    }
    let (worked, kept) = join(
        rt,
        || run_workers(rt, alloc, floor, workers, turn_limit),
        || run_keeper(rt, alloc, floor, callers),
    );
    floor.finish();
    callers.ring_all(rt);
    let ends = worked?;
    kept?;
    Ok(ends)
}

/// Runs the keeper once the workers are started. It ends when they have ended.
fn run_keeper<L, M, W, J, R>(
    rt: &R,
    alloc: Global,
    floor: &Floor<L, M, W, J>,
    callers: &Callers,
) -> Result<(), DayFault>
where
    L: Run,
    M: Accounts,
    W: Write + Drop,
    J: Telling,
    R: Wait + time::Clock,
    ensures { IfErr result IsNoMismatch }
{
    if !floor.signals.awaits(rt, &floor.signals.workers) {
        floor.give_up();
        return Err(DayFault::NoThread);
    }
    keep(rt, alloc, floor, callers);
    Ok(())
}

/// Waits for the exchanges. One that wanted memory refuses the day.
fn join_exchanges<R: Threads>(
    rt: &R,
    handles: Vec<JoinHandle<Result<(), AllocError>>>,
) -> Result<(), DayFault>
    ensures { IfErr result IsNoMismatch }
{
    for handle in handles {
        handle.join(rt)?;
    }
    Ok(())
}

/// Waits for the servers of the page, and gives the clients that followed the day to its end. One for which there is no
/// memory is let go.
fn join_pages<R: Threads>(
    rt: &R,
    alloc: Global,
    pages: Vec<JoinHandle<Vec<TcpStream>>>,
) -> Vec<TcpStream> {
    let mut followers = Vec::new(alloc);
    for page in pages {
        for follower in page.join(rt) {
            let _ = followers.push(follower);
        }
    }
    followers
}
