//! Callers and workers at the lock.

ghost use Rattle.std.specs.Prelude.{◌≡◌, map};

use super::outcome::Outcome;
use super::{Load, MAX_TURNS, VENUES, worked_sweep};
use exec_collector::{Accounts, Collector};
use release_lock::{CallerSeat, ReleaseLock, Run};
use std::alloc::Global;
use std::marker::Brand;
use std::sync::Wait;
use std::thread::{Threads, join, map_vec, yield_now};
use std::time::{Clock, Instant};
use sweep_release::ReleaseFault;
use trial::{Floor, Post, Site, TrialFault, seats_of};

/// Releases a sweep, and makes and releases it again while a venue has too many legs. Whether it was released.
fn releases<L: Run, M: Accounts>(
    rt: &impl Wait,
    alloc: Global,
    lock: &ReleaseLock<L>,
    collector: &Collector<M>,
    seat: &mut CallerSeat<L>,
) -> bool
    requires tied { L.sweeps ≡ M.sweeps }
{
    for _ in 0..MAX_TURNS {
        let Ok(sweep) = worked_sweep(alloc) else {
            return false;
        };
        match lock.release(rt, collector, sweep, seat) {
            Ok(_) => return true,
            Err(ReleaseFault::BacklogFull(_)) => yield_now(),
            Err(_) => return false,
        }
    }
    false
}

/// A caller releases so many sweeps. How many it did.
fn calls<L: Run, M: Accounts>(
    rt: &impl Wait,
    alloc: Global,
    lock: &ReleaseLock<L>,
    collector: &Collector<M>,
    seat: CallerSeat<L>,
    sweeps: u64,
) -> u64
    requires tied { L.sweeps ≡ M.sweeps }
{
    let mut seat = seat;
    for done in 0..sweeps {
        if !releases(rt, alloc, lock, collector, &mut seat) {
            return done;
        }
    }
    sweeps
}

/// A worker pops so many legs, and pumps where it finds none. How many it popped; 0 where one came out of its order.
fn pops<L: Run, M: Accounts>(
    rt: &impl Wait,
    lock: &ReleaseLock<L>,
    post: Post<L, M>,
    legs: u64,
) -> u64 {
    let Post { mut drain, seat: _ } = post;
    for _ in 0..MAX_TURNS {
        if drain.popped() == legs {
            break;
        }
        match drain.pop(rt) {
            Some(leg) if leg.ordinal == drain.popped() => {}
            Some(_) => return 0,
            None => {
                lock.pump(rt, drain.venue());
                yield_now();
            }
        }
    }
    drain.popped()
}

/// Callers release and workers pop, each in a thread. The time is that of all of them.
fn in_threads<L: Run + Send + Sync, M: Accounts + Send + Sync, R: Threads + Wait + Clock + Sync>(
    rt: &R,
    alloc: Global,
    floor: Floor<L, M>,
    load: Load,
) -> Result<Outcome, TrialFault>
    requires tied { L.sweeps ≡ M.sweeps }
{
    let Floor {
        lock,
        collector,
        seat,
        posts,
    } = floor;
    for post in posts.iter() {
        lock.raise(rt, &post.drain)?;
    }
    let seats = seats_of(alloc, seat, load.callers)?;
    let (sweeps, legs) = (load.sweeps, load.all_sweeps());
    let (lock, collector) = (&lock, &collector);
    let start = Instant::now(rt)?;
    let (released, popped) = join(
        rt,
        ||
            requires { L.sweeps ≡ M.sweeps }
        {
            map_vec(
                rt,
                seats,
                &|seat|
                    requires { L.sweeps ≡ M.sweeps }
                { calls(rt, alloc, lock, collector, seat, sweeps) },
            )
        },
        || map_vec(rt, posts, &|post| pops(rt, lock, post, legs)),
    );
    Ok(Outcome::of(&released?, &popped?, start.elapsed(rt)?))
}

/// A load at a floor of this site.
fn load_at<L: Run + Send + Sync, M: Accounts + Send + Sync, R: Threads + Wait + Clock + Sync>(
    rt: &R,
    alloc: Global,
    site: Site,
    load: Load,
) -> Result<Outcome, TrialFault>
    requires lock { (site.callers.name ≡ L.name) × (L.parts ≡ 1024)
        × (L.queues ≡ map (λ ends. ends.0.table) site.rings.items) × (site.callers.slips ≡ L.slips) }
    requires book { (site.workers.name ≡ M.name) × (M.parts ≡ site.venues) × (site.workers.lists ≡ M.lists) }
    requires sweeps { (site.workers.sweeps ≡ M.sweeps) × (L.sweeps ≡ M.sweeps) }
{
    in_threads(rt, alloc, Floor::<L, M>::open(alloc, site)?, load)
}

/// A lock of sixteen venues, with so many callers and a worker of each venue, in threads.
pub fn at_lock<R: Threads + Wait + Clock + Sync>(
    rt: &R,
    alloc: Global,
    load: Load,
) -> Result<Outcome, TrialFault> {
    load_at::<Brand, Brand, R>(rt, alloc, Site::new(alloc, VENUES)?, load)
}
