//! Workers of several venues in threads, with callers in threads of their own.

ghost use Rattle.std.specs.Prelude.{◌≡◌, map};

use clock::StoppedClock;
use day_trial::{
    Caller, CallerEnd, DayFault, Outcome, TRADES_SIX, day_outcome, memory_link, worker_of,
};
use dialect::Plain;
use exchange_sim::{MemoryLink, MemoryPlan, Plan};
use exec_collector::{Accounts, Collector};
use leg::VenueId;
use release_lock::{CallerSeat, ReleaseLock, Run};
use session_worker::{EndReason, Pace, Worker, run_all, shut_gate};
use std::alloc::Global;
use std::fmt::Write;
use std::marker::Brand;
use std::sync::Wait;
use std::thread;
use std::thread::{Threads, join, map_vec};
use std::time::{Clock, Duration};
use sweep_release::Receipt;
use trial::{Floor, MAX_NUMBER, Order, Post, Site, TEN, seats_of};

/// How many turns a worker takes at most: its gate is shut long before.
const MOST_TURNS: u64 = 20_000_000;

/// How often a caller tries its sweep at most, a millisecond apart.
const MOST_TRIES: u64 = 10_000;

/// How many sweeps each caller releases.
const SWEEPS: u64 = 3;

/// A worker that writes and asks for nothing by itself.
const PACE: Pace = Pace::Turns {
    quiet_turns: MOST_TURNS,
    silent_turns: MOST_TURNS,
};

/// A worker over a link in memory.
type MemoryWorker<L, M> = Worker<Plain, MemoryLink<Plain, StoppedClock>, StoppedClock, L, M>;

/// How many venues and callers there are.
#[derive(Clone, Copy, Debug)]
struct Size {
    venues: u8,
    callers: u64,
}

impl Size {
    /// An order of ten shares for each venue.
    fn orders(self, alloc: Global) -> Result<Vec<Order>, DayFault> {
        let mut orders = Vec::with_capacity(alloc, usize::from(self.venues))?;
        for venue in 0..self.venues {
            orders.push(Order { venue, ..TEN })?;
        }
        Ok(orders)
    }
}

/// A caller releases its sweeps, each again and again until it is placed.
fn calls<L: Run, M: Accounts, R: Wait + Clock>(
    rt: &R,
    alloc: Global,
    lock: &ReleaseLock<L>,
    collector: &Collector<M>,
    seat: CallerSeat<L>,
    orders: &[Order],
) -> CallerEnd<L>
    requires tied { L.sweeps ≡ M.sweeps }
{
    let mut caller = Caller::new(rt, alloc, lock, collector, seat);
    for _ in 0..SWEEPS {
        for _ in 0..MOST_TRIES {
            if caller.release(orders) {
                break;
            }
            thread::sleep(rt, Duration::from_millis(1));
        }
    }
    caller.into_end()
}

/// All callers make their calls, and then the gates are shut.
fn all_call<L: Run + Send + Sync, M: Accounts + Send + Sync, R: Threads + Wait + Clock + Sync>(
    rt: &R,
    alloc: Global,
    lock: &ReleaseLock<L>,
    collector: &Collector<M>,
    seats: Vec<CallerSeat<L>>,
    orders: &[Order],
) -> Result<Vec<CallerEnd<L>>, DayFault>
    requires tied { L.sweeps ≡ M.sweeps }
{
    let ends = map_vec(
        rt,
        seats,
        &|seat| calls(rt, alloc, lock, collector, seat, orders),
    );
    for order in orders {
        shut_gate(rt, lock, VenueId::new(order.venue)?);
    }
    Ok(ends?)
}

/// The worker of a post. The exchange of venue 0 cuts its connection once.
fn worker_at<L: Run, M: Accounts>(
    alloc: Global,
    post: Post<L, M>,
) -> Result<MemoryWorker<L, M>, DayFault> {
    let cut_after = if post.drain.venue().number() == 0 {
        4
    } else {
        0
    };
    let exchange = Plan {
        cut_after,
        ..TRADES_SIX
    };
    let link = memory_link(alloc, MemoryPlan::faultless(exchange))?;
    worker_of(alloc, link, MAX_NUMBER, PACE, post)
}

/// A worker for each post, in order.
fn workers_of<L: Run, M: Accounts>(
    alloc: Global,
    posts: Vec<Post<L, M>>,
) -> Result<Vec<MemoryWorker<L, M>>, DayFault> {
    let mut workers = Vec::with_capacity(alloc, posts.len())?;
    for post in posts {
        workers.push(worker_at(alloc, post)?)?;
    }
    Ok(workers)
}

/// The seats of the callers, and what they got for their sweeps.
fn parted<L: Run>(
    alloc: Global,
    callers: Vec<CallerEnd<L>>,
) -> Result<(Vec<CallerSeat<L>>, Vec<Receipt>), DayFault> {
    let mut seats = Vec::with_capacity(alloc, callers.len())?;
    let mut all = Vec::new(alloc);
    for caller in callers {
        let CallerEnd { seat, receipts, .. } = caller;
        seats.push(seat)?;
        all.extend_from_slice(receipts.as_slice())?;
    }
    Ok((seats, all))
}

/// The callers and the workers of a day, each in a thread.
fn in_threads<L: Run + Send + Sync, M: Accounts + Send + Sync, R: Threads + Wait + Clock + Sync>(
    rt: &R,
    alloc: Global,
    floor: Floor<L, M>,
    size: Size,
) -> Result<Outcome, DayFault>
    requires tied { L.sweeps ≡ M.sweeps }
{
    let Floor {
        lock,
        collector,
        seat,
        posts,
    } = floor;
    let workers = workers_of(alloc, posts)?;
    let seats = seats_of(alloc, seat, size.callers)?;
    let orders = size.orders(alloc)?;
    let (ends, callers) = join(
        rt,
        || run_all(rt, alloc, &lock, &collector, workers, MOST_TURNS),
        ||
            requires { L.sweeps ≡ M.sweeps }
        { all_call(rt, alloc, &lock, &collector, seats, orders.as_slice()) },
    );
    let (seats, receipts) = parted(alloc, callers?)?;
    day_outcome(
        rt,
        alloc,
        lock,
        collector,
        seats,
        receipts.as_slice(),
        ends?,
    )
}

/// A day at a floor of this site.
fn day_at<L: Run + Send + Sync, M: Accounts + Send + Sync, R: Threads + Wait + Clock + Sync>(
    rt: &R,
    alloc: Global,
    site: Site,
    size: Size,
) -> Result<Outcome, DayFault>
    requires lock { (site.callers.name ≡ L.name) × (L.parts ≡ 1024)
        × (L.queues ≡ map (λ ends. ends.0.table) site.rings.items) × (site.callers.slips ≡ L.slips) }
    requires book { (site.workers.name ≡ M.name) × (M.parts ≡ site.venues) × (site.workers.lists ≡ M.lists) }
    requires sweeps { (site.workers.sweeps ≡ M.sweeps) × (L.sweeps ≡ M.sweeps) }
{
    in_threads(rt, alloc, Floor::<L, M>::open(alloc, site)?, size)
}

/// The day of so many venues and callers.
fn play<R: Threads + Wait + Clock + Sync>(
    rt: &R,
    alloc: Global,
    size: Size,
) -> Result<Outcome, DayFault> {
    day_at::<Brand, Brand, R>(rt, alloc, Site::new(alloc, size.venues)?, size)
}

/// Whether every worker closed with so many legs taken.
fn all_closed(outcome: &Outcome, legs: usize) -> bool {
    outcome
        .venues
        .iter()
        .all(|end| end.reason == EndReason::Closed && end.taken == legs)
}

/// Plays days of one venue, of two and of sixteen, each with one caller and with eight, and writes what became of them.
pub fn tell_at_once<R: Threads + Wait + Clock + Sync>(
    rt: &R,
    alloc: Global,
    text: &mut String,
) -> Result<(), DayFault> {
    for (venues, callers) in [(1, 1), (1, 8), (2, 1), (2, 8), (16, 1), (16, 8)] {
        let size = Size { venues, callers };
        let outcome = play(rt, alloc, size)?;
        let sweeps = outcome.sweeps.len();
        let placed = outcome.report.placed;
        let still_open = outcome.report.still_open;
        let closed = all_closed(&outcome, sweeps);
        writeln!(
            text,
            "venues {venues}, callers {callers}: {sweeps} sweeps of {placed} shares, {still_open} open; \
             each worker closed with {sweeps} legs: {closed}"
        )?;
    }
    Ok(())
}
