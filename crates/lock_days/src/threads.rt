//! Callers and workers in threads, after which seats and rings are compared with desk and book.

ghost use Rattle.std.specs.Prelude.{◌≡◌, map};

use exec_collector::{Accounts, Collector, Miscounted as MiscountedBook, WorkerSeat, check_count};
use kept_link::Untold;
use release_lock::{
    CallerSeat, Miscounted, ReleaseLock, Run, VenueDrain, VenueEnd, WrongQueue, check_placed,
    check_queues,
};
use std::alloc::Global;
use std::fmt;
use std::marker::Brand;
use std::sync::Wait;
use std::thread::{Threads, join, map_vec, yield_now};
use trial::{Floor, Post, Site, TrialFault, seats_of, sweep_each};

/// How many venues there are.
const VENUES: u8 = 16;

/// How many callers there are, and how many sweeps each releases, of one share for each venue.
const CALLERS: u64 = 8;

const SWEEPS: u64 = 30;

/// How many legs are released to each venue.
const LEGS: u64 = CALLERS * SWEEPS;

/// How often a worker looks for a leg at most.
const MOST_TURNS: u64 = 1_000_000;

/// The shares placed, the shares withdrawn, and whether each worker took the first legs released to its venue.
#[derive(Clone, Copy, Debug)]
pub struct CrowdEnd {
    placed: Result<u64, Miscounted>,
    resolved: Result<u64, MiscountedBook>,
    queues: Result<(), WrongQueue>,
}

impl fmt::Display for CrowdEnd {
    fn fmt<W: fmt::Write>(&self, f: &mut fmt::Formatter<W>) -> fmt::Result {
        let CrowdEnd {
            placed,
            resolved,
            queues,
        } = self;
        write!(
            f,
            "{CALLERS} callers, {VENUES} venues: placed {placed:?} resolved {resolved:?} queues {queues:?}"
        )
    }
}

/// A caller releases its sweeps.
fn calls<L: Run, M: Accounts>(
    rt: &impl Wait,
    alloc: Global,
    lock: &ReleaseLock<L>,
    collector: &Collector<M>,
    seat: CallerSeat<L>,
) -> CallerSeat<L>
    requires tied { L.sweeps ≡ M.sweeps }
{
    let mut seat = seat;
    for _ in 0..SWEEPS {
        if let Ok(sweep) = sweep_each(alloc, VENUES, 1) {
            let _receipt = lock.release(rt, collector, sweep, &mut seat);
        }
    }
    seat
}

/// A worker pops until it has so many legs, or its turns are over; where it finds none it pumps. `None` where something
/// was popped before.
pub fn works<L: Run>(
    rt: &impl Wait,
    alloc: Global,
    lock: &ReleaseLock<L>,
    drain: VenueDrain<L>,
    count: u64,
) -> Option<VenueEnd<L>> {
    if drain.popped() != 0 {
        return None;
    }
    let mut drain = drain;
    let mut taken = Vec::new(alloc);
    for _ in 0..MOST_TURNS {
        if drain.popped() == count || taken.reserve(1).is_err() {
            break;
        }
        match drain.pop(rt) {
            Some(leg) => taken.push_reserved(leg),
            None => {
                lock.pump(rt, drain.venue());
                yield_now();
            }
        }
    }
    Some(VenueEnd::new(drain, taken))
}

/// What a worker took, and its seat.
type Worked<L, M> = (VenueEnd<L>, WorkerSeat<M>);

/// A worker pops all legs of its venue, and withdraws each in the book.
fn withdraws<L: Run, M: Accounts>(
    rt: &impl Wait,
    alloc: Global,
    lock: &ReleaseLock<L>,
    collector: &Collector<M>,
    post: Post<L, M>,
) -> Option<Worked<L, M>> {
    let Post { drain, mut seat } = post;
    let end = works(rt, alloc, lock, drain, LEGS)?;
    for placed in end.taken() {
        let _withdrawn = collector.withdraw(rt, placed.leg.id, &mut seat, &Untold);
    }
    Some((end, seat))
}

/// What the workers took, and their seats.
fn parted<L: Run, M: Accounts>(
    alloc: Global,
    workers: Vec<Option<Worked<L, M>>>,
) -> Result<(Vec<VenueEnd<L>>, Vec<WorkerSeat<M>>), TrialFault> {
    let mut ends = Vec::with_capacity(alloc, workers.len())?;
    let mut seats = Vec::with_capacity(alloc, workers.len())?;
    for worker in workers {
        let (end, seat) = worker.ok_or(TrialFault::Missing)?;
        ends.push(end)?;
        seats.push(seat)?;
    }
    Ok((ends, seats))
}

/// Compares the seats and the rings with desk and book.
fn compared<L: Run, M: Accounts>(
    alloc: Global,
    lock: ReleaseLock<L>,
    collector: Collector<M>,
    callers: Vec<CallerSeat<L>>,
    workers: Vec<Option<Worked<L, M>>>,
) -> Result<CrowdEnd, TrialFault> {
    let (ends, seats) = parted(alloc, workers)?;
    let mut locked = lock.into_locked();
    let mut counted = collector.into_counted();
    let placed = check_placed(&mut locked, callers);
    let resolved = check_count(&mut counted, seats);
    Ok(CrowdEnd {
        placed,
        resolved,
        queues: check_queues(locked, ends),
    })
}

/// Callers and workers, each in a thread.
fn in_threads<L: Run + Send + Sync, M: Accounts + Send + Sync, R: Threads + Wait + Sync>(
    rt: &R,
    alloc: Global,
    floor: Floor<L, M>,
) -> Result<CrowdEnd, TrialFault>
    requires tied { L.sweeps ≡ M.sweeps }
{
    let Floor {
        lock,
        collector,
        seat,
        posts,
    } = floor;
    for post in posts.iter() {
        lock.raise(rt, &post.drain)?;
    }
    let callers = seats_of(alloc, seat, CALLERS)?;
    let shared = (&lock, &collector);
    let (released, worked) = join(
        rt,
        ||
            requires { L.sweeps ≡ M.sweeps }
        {
            map_vec(
                rt,
                callers,
                &|seat|
                    requires { L.sweeps ≡ M.sweeps }
                { calls(rt, alloc, shared.0, shared.1, seat) },
            )
        },
        || map_vec(
            rt,
            posts,
            &|post| withdraws(rt, alloc, shared.0, shared.1, post),
        ),
    );
    compared(alloc, lock, collector, released?, worked?)
}

/// Callers and workers at a floor of this site.
fn crowd_at<L: Run + Send + Sync, M: Accounts + Send + Sync, R: Threads + Wait + Sync>(
    rt: &R,
    alloc: Global,
    site: Site,
) -> Result<CrowdEnd, TrialFault>
    requires lock { (site.callers.name ≡ L.name) × (L.parts ≡ 1024)
        × (L.queues ≡ map (λ ends. ends.0.table) site.rings.items) × (site.callers.slips ≡ L.slips) }
    requires book { (site.workers.name ≡ M.name) × (M.parts ≡ site.venues) × (site.workers.lists ≡ M.lists) }
    requires sweeps { (site.workers.sweeps ≡ M.sweeps) × (L.sweeps ≡ M.sweeps) }
{
    in_threads(rt, alloc, Floor::<L, M>::open(alloc, site)?)
}

/// Eight callers and sixteen workers, in threads.
pub fn run_crowd<R: Threads + Wait + Sync>(rt: &R, alloc: Global) -> Result<CrowdEnd, TrialFault> {
    crowd_at::<Brand, Brand, R>(rt, alloc, Site::new(alloc, VENUES)?)
}
