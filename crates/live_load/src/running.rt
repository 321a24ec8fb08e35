//! A day from its rings to its audit.

ghost use Rattle.std.specs.Prelude.{◌≡◌, ◌+◌, ◌*◌, ◌<◌, ◌≤◌, length, map, sum_by, None, IfOk, IfErr};
ghost use Rattle.std.specs.List.{All};
ghost use Rattle.day_sweeps.specs.Paid.{parts_of};
ghost use Rattle.release_lock.specs.Queues.{IsFresh};
ghost use Rattle.desk_venues.specs.Starts.{any_wording};
ghost use Rattle.session_worker.specs.Ends.{AllRan};
ghost use Rattle.session_worker.specs.Places.{place, new_places};
ghost use Rattle.desk_day.specs.Audited.{IsAudited};
ghost use Rattle.live_load.specs.Config.{venues_to};
ghost use Rattle.desk_venues.specs.Faults.{IsNoMismatch};
ghost use Rattle.live_load.specs.Told.{IsLiveDay, TellsEnds};
ghost use Rattle.live_load.specs.Day.{IsLivePlan, AllCalled, AreCalled, caller_of, left_of, shares_each};

use crate::caller::{CallerEnd, split_seats};
use crate::callers::run_callers;
use crate::config::venues_of;
use crate::venues::{is_answered, left_venues};
use crate::{LiveDay, LivePlan, Progress};
use clock::Clock;
use desk_config::Venue;
use desk_day::{DeskDay, Means, OpenDay, Past, begin_day, close_day, open_day};
use desk_floor::{Floor, Manner, Voice};
use desk_serve::{Cast, Ended};
use desk_talk::Callers;
use desk_threads::in_threads;
use desk_venues::{DayFault, Serve, no_secrets};
use exec_collector::{Accounts, BlankBook};
use json_lines::Form;
use kept_link::Untold;
use link::Link;
use order_limits::OrderLimits;
use release_lock::{BlankDesk, CallerSeat, Run, rings};
use std::alloc::{AllocError, Global};
use std::collections::VecDeque;
use std::fs::{File, Files};
use std::io::{Sink, Write, sink};
use std::marker::Brand;
use std::net::{Net, TcpListener, TcpStream};
use std::sync::Wait;
use std::thread::{Threads, join};
use std::time;
use venue_queue::{Drain, Feed};

/// How many seconds a day lasts at most once the callers have ended: whether open shares are waited for is decided by
/// whether some are resolved.
const PATIENCE: u64 = 86_400;

/// Runs a desk's day over loopback, and audits it. Each caller hands its sweeps in, with an order of 10 shares for each
/// venue. What changes is told to nobody.
pub fn run_live<R, P>(
    rt: &R,
    alloc: Global,
    plan: LivePlan,
    progress: P,
) -> Result<LiveDay, DayFault>
where
    R: Net<Listener = TcpListener, Stream = TcpStream>
        + Files<File = File>
        + Threads
        + Wait
        + time::Clock
        + Sync,
    P: Progress + Drop,
    requires { IsLivePlan plan }
    ensures day { IfOk result (IsLiveDay (venues_to plan.venues)) }
    ensures placed { IfOk result (λ day. day.report.placed + day.unplaced * shares_each plan
        ≡ plan.callers * (plan.sweeps * shares_each plan)) }
    ensures only { IfErr result IsNoMismatch }
{
    let rings = rings(alloc, plan.venues)?;
    let Some(venues) = venues_of(alloc, plan.venues) else {
        return Err(DayFault::OutOfMemory);
    };
    let Ok(workers) = BlankBook::new(alloc, plan.venues) else {
        return Err(DayFault::OutOfMemory);
    };
    let callers = BlankDesk::new(1024);
    named_day::<Brand, Brand, R, P>(
        rt,
        alloc,
        plan,
        venues.as_slice(),
        callers,
        workers,
        rings,
        progress,
    )
}

/// A day whose names were picked.
fn named_day<L, M, R, P>(
    rt: &R,
    alloc: Global,
    plan: LivePlan,
    venues: &[Venue],
    callers: BlankDesk,
    workers: BlankBook,
    rings: VecDeque<(Feed, Drain)>,
    progress: P,
) -> Result<LiveDay, DayFault>
where
    L: Run + Send + Sync,
    M: Accounts + Send + Sync,
    R: Net<Listener = TcpListener, Stream = TcpStream>
        + Files<File = File>
        + Threads
        + Wait
        + time::Clock
        + Sync,
    P: Progress + Drop,
    requires plan { IsLivePlan plan }
    requires venues { length venues.now ≡ plan.venues }
    requires callers { (callers.name ≡ L.name) × (callers.parts ≡ L.parts) × (L.parts ≡ 1024)
        × (callers.slips ≡ L.slips) }
    requires workers { (workers.name ≡ M.name) × (workers.parts ≡ M.parts) × (M.parts ≡ plan.venues) }
    requires lists { (workers.lists ≡ M.lists) × (workers.sweeps ≡ M.sweeps) }
    requires tied { L.sweeps ≡ M.sweeps }
    requires rings { (length rings.items ≡ plan.venues) × All IsFresh rings.items }
    requires queues { L.queues ≡ map (λ ends. ends.0.table) rings.items }
    ensures day { IfOk result (IsLiveDay venues.now) }
    ensures placed { IfOk result (λ day. day.report.placed + day.unplaced * shares_each plan
        ≡ plan.callers * (plan.sweeps * shares_each plan)) }
    ensures only { IfErr result IsNoMismatch }
{
    let means = Means {
        manner: Manner {
            patience: PATIENCE,
            tells_news: true,
            tells_executions: false,
            wants_refs: false,
            waits: false,
            serves: false,
        },
        limits: OrderLimits::none(alloc),
        folder: None,
        voice: Voice::new(alloc, Form::Words, sink()),
        secrets: no_secrets(alloc, venues.len())?,
        servers: Vec::new(alloc),
        listens: false,
        cut: plan.cut,
    };
    let begun = begin_day::<L, M>(alloc, venues, callers, workers, rings)?;
    let past = Past::none(alloc, venues.len())?;
    let day = open_day::<L, M, R, Sink, Untold>(rt, alloc, venues, means, begun, past)?;
    let OpenDay { floor, cast, seat } = day;
    let seats = split_seats(alloc, seat, plan.callers)?;
    let (ended, called) = with_callers(rt, alloc, &floor, cast, plan, seats, progress)?;
    told(rt, alloc, plan, floor, ended, called)
}

/// Runs the threads of a day beside those of its callers.
fn with_callers<X, K, C, L, M, W, R, P>(
    rt: &R,
    alloc: Global,
    floor: &Floor<L, M, W>,
    cast: Cast<X, K, C, L, M>,
    plan: LivePlan,
    seats: Vec<CallerSeat<L>>,
    progress: P,
) -> Result<(Ended<K, L, M>, Vec<CallerEnd<L>>), DayFault>
where
    X: Serve + Drop + Send,
    K: Link + Send,
    C: Clock + Drop + Send,
    L: Run + Send + Sync,
    M: Accounts + Send + Sync,
    W: Write + Drop + Send,
    R: Threads + Wait + time::Clock + Sync,
    P: Progress + Drop,
    ensures ran { IfOk result (λ day. AllRan any_wording cast.workers.items day.0.workers.items) }
    ensures workers { IfOk result (λ day. map (λ e. place e.parts) day.0.workers.items
        ≡ map (λ w. place w.parts) cast.workers.items) }
    ensures callers { IfOk result (λ day. AllCalled (map (λ s. caller_of plan s) seats.items)
        (map (λ e. left_of e.seat e.unplaced) day.1.items)) }
    ensures only { IfErr result IsNoMismatch }
{
    let callers = &Callers::new(alloc, false);
    let (ended, called) = join(
        rt,
        || -> Result<Ended<K, L, M>, DayFault>
            ensures ran { IfOk result (λ ended. AllRan any_wording cast.workers.items ended.workers.items) }
            ensures workers { IfOk result (λ ended. map (λ e. place e.parts) ended.workers.items
                ≡ map (λ w. place w.parts) cast.workers.items) }
            ensures only { IfErr result IsNoMismatch }
        { in_threads(rt, alloc, floor, callers, cast, plan.turns) },
        || -> Result<Vec<CallerEnd<L>>, DayFault>
            ensures called { IfOk result (λ ends. AllCalled (map (λ s. caller_of plan s) seats.items)
                (map (λ e. left_of e.seat e.unplaced) ends.items)) }
            ensures only { IfErr result IsNoMismatch }
        { run_callers(rt, alloc, floor, plan, seats, progress) },
    );
    Ok((ended?, called?))
}

/// What became of a day whose threads have ended.
fn told<K: Link, L: Run, M: Accounts, W: Write + Drop, R: Wait + time::Clock>(
    rt: &R,
    alloc: Global,
    plan: LivePlan,
    floor: Floor<L, M, W>,
    ended: Ended<K, L, M>,
    called: Vec<CallerEnd<L>>,
) -> Result<LiveDay, DayFault>
    requires plan { IsLivePlan plan }
    requires page { floor.shared ≡ None }
    requires workers { map (λ e. place e.parts) ended.workers.items ≡ new_places M.parts }
    requires some { 0 < M.parts }
    requires callers { AreCalled plan (map (λ e. left_of e.seat e.unplaced) called.items) }
    ensures audited { IfOk result (λ day. IsAudited ended.workers.items (parts_of day.sweeps.items) day.report) }
    ensures ends { IfOk result (TellsEnds ended.workers.items) }
    ensures placed { IfOk result (λ day. day.report.placed + day.unplaced * shares_each plan
        ≡ plan.callers * (plan.sweeps * shares_each plan)) }
    ensures only { IfErr result IsNoMismatch }
{
    let (seats, unplaced) = parted(alloc, called)?;
    let is_answered = is_answered(ended.workers.as_slice());
    let venues = left_venues(alloc, ended.workers.as_slice())?;
    let day = close_day(rt, alloc, floor, ended, seats, None)?;
    let DeskDay {
        sweeps,
        doubts: _,
        unbooked: _,
        is_given_up: _,
        report,
        broken_off: _,
    } = day;
    Ok(LiveDay {
        sweeps,
        venues,
        unplaced,
        is_answered,
        report,
    })
}

/// The callers' seats, and how many sweeps they gave up in all.
fn parted<L: Run>(
    alloc: Global,
    ends: Vec<CallerEnd<L>>,
) -> Result<(Vec<CallerSeat<L>>, u64), AllocError>
    requires { sum_by (λ e. e.unplaced) ends.items ≤ 64000000 }
    ensures { IfOk result (λ parts. (parts.0.items ≡ map (λ e. e.seat) ends.items)
        × (parts.1 ≡ sum_by (λ e. e.unplaced) ends.items)) }
{
    let mut ends = VecDeque::from(ends);
    let mut seats = Vec::new(alloc);
    let mut unplaced = 0;
    while let Some(end) = ends.pop_front() {
        unplaced += end.unplaced;
        seats.push(end.seat)?;
    }
    Ok((seats, unplaced))
}
