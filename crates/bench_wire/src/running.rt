//! The caller, beside the workers.

ghost use Rattle.std.specs.Prelude.{◌≡◌, map};

use crate::WireLoad;
use crate::workers::{WireWorker, Workers};
use exec_collector::{Accounts, Collector};
use leg::VenueId;
use link::Bell;
use release_lock::{CallerSeat, ReleaseLock, Run};
use session_worker::{EndReason, run_all, shut_gate};
use std::alloc::Global;
use std::io::Write;
use std::marker::Brand;
use std::net::{Net, TcpListener, TcpStream};
use std::sync::{Arc, Wait};
use std::thread;
use std::thread::{Threads, join};
use std::time::{Clock, Duration, Instant};
use trial::{Floor, Site, TrialFault, sweep_each};

/// How often a sweep is tried at most, a millisecond apart: for ten seconds.
const MOST_TRIES: u64 = 10_000;

/// What the threads share.
#[derive(Drop)]
struct Shared<L: Run, M: Accounts> {
    lock: ReleaseLock<L>,
    collector: Collector<M>,
    bells: Vec<Arc<Bell, Global>>,
    ghost tied: { L.sweeps ≡ M.sweeps },
}

impl<L: Run, M: Accounts> Shared<L, M> {
    /// Rings the bell of each worker.
    fn ring_all(&self) {
        for bell in self.bells.iter() {
            bell.ring();
        }
    }

    /// Shuts the gate of each venue.
    fn shut_gates(&self, rt: &impl Wait, venues: u8) -> Result<(), TrialFault> {
        for venue in 0..venues {
            shut_gate(rt, &self.lock, VenueId::new(venue)?);
        }
        self.ring_all();
        Ok(())
    }
}

/// Hands a sweep in until it is placed, and says when it was: the nanoseconds of the system's monotonic clock.
fn hands_in<L: Run, M: Accounts>(
    rt: &(impl Wait + Clock),
    alloc: Global,
    shared: &Shared<L, M>,
    seat: &mut CallerSeat<L>,
    venues: u8,
) -> Result<u128, TrialFault> {
    for _ in 0..MOST_TRIES {
        let sweep = sweep_each(alloc, venues, 100)?;
        let at = rt.monotonic()?;
        if shared
            .lock
            .release(rt, &shared.collector, sweep, seat)
            .is_ok()
        {
            shared.ring_all();
            return Ok(at.as_nanos());
        }
        thread::sleep(rt, Duration::from_millis(1));
    }
    Err(TrialFault::Refused)
}

/// Hands in all sweeps, at their pace, and says when each was handed in.
fn hands_in_all<L: Run, M: Accounts>(
    rt: &(impl Wait + Clock),
    alloc: Global,
    shared: &Shared<L, M>,
    seat: CallerSeat<L>,
    load: WireLoad,
) -> Result<Vec<u128>, TrialFault> {
    let mut seat = seat;
    let mut times = Vec::new(alloc);
    let pause = Duration::from_micros(load.pause);
    for _ in 0..load.sweeps {
        let begun = Instant::now(rt)?;
        times.push(hands_in(rt, alloc, shared, &mut seat, load.venues)?)?;
        thread::sleep(rt, pause.saturating_sub(begun.elapsed(rt)?));
    }
    Ok(times)
}

/// The caller: whatever comes of its sweeps, the gates are shut at the end.
fn calls<L: Run, M: Accounts>(
    rt: &(impl Wait + Clock),
    alloc: Global,
    shared: &Shared<L, M>,
    seat: CallerSeat<L>,
    load: WireLoad,
) -> Result<Vec<u128>, TrialFault> {
    let times = hands_in_all(rt, alloc, shared, seat, load);
    shared.shut_gates(rt, load.venues)?;
    times
}

/// Runs the workers to their end. Refused where one of them didn't close.
fn works<
    L: Run + Send + Sync,
    M: Accounts + Send + Sync,
    R: Net<Listener = TcpListener, Stream = TcpStream> + Threads + Wait + Clock + Sync,
>(
    rt: &R,
    alloc: Global,
    shared: &Shared<L, M>,
    workers: Vec<WireWorker<'_, R, L, M>>,
) -> Result<(), TrialFault> {
    let Ok(ends) = run_all(
        rt,
        alloc,
        &shared.lock,
        &shared.collector,
        workers,
        u64::MAX,
    ) else {
        return Err(TrialFault::Refused);
    };
    if ends.iter().all(|end| end.reason == EndReason::Closed) {
        Ok(())
    } else {
        Err(TrialFault::Refused)
    }
}

/// The caller and the workers, in threads.
fn in_threads<
    L: Run + Send + Sync,
    M: Accounts + Send + Sync,
    R: Net<Listener = TcpListener, Stream = TcpStream> + Threads + Wait + Clock + Sync,
>(rt: &R, alloc: Global, floor: Floor<L, M>, load: WireLoad) -> Result<Vec<u128>, TrialFault> {
    let Floor {
        lock,
        collector,
        seat,
        posts,
    } = floor;
    let Workers { workers, bells } = Workers::new(rt, alloc, posts, load)?;
    let shared = Shared {
        lock,
        collector,
        bells,
    };
    let shared = &shared;
    let (worked, times) = join(
        rt,
        || works(rt, alloc, shared, workers),
        || calls(rt, alloc, shared, seat, load),
    );
    worked?;
    times
}

/// A load at a floor of this site.
fn load_at<
    L: Run + Send + Sync,
    M: Accounts + Send + Sync,
    R: Net<Listener = TcpListener, Stream = TcpStream> + Threads + Wait + Clock + Sync,
>(rt: &R, alloc: Global, site: Site, load: WireLoad) -> Result<Vec<u128>, TrialFault>
    requires lock { (site.callers.name ≡ L.name) × (L.parts ≡ 1024)
        × (L.queues ≡ map (λ ends. ends.0.table) site.rings.items) × (site.callers.slips ≡ L.slips) }
    requires book { (site.workers.name ≡ M.name) × (M.parts ≡ site.venues) × (site.workers.lists ≡ M.lists) }
    requires sweeps { (site.workers.sweeps ≡ M.sweeps) × (L.sweeps ≡ M.sweeps) }
{
    in_threads(rt, alloc, Floor::<L, M>::open(alloc, site)?, load)
}

/// Hands in the sweeps of a load while workers send them to the exchanges at its ports. Writes a line for each sweep:
/// its number, and the nanoseconds of the system's monotonic clock when it was handed in.
pub fn run_wire<
    R: Net<Listener = TcpListener, Stream = TcpStream> + Threads + Wait + Clock + Sync,
    W: Write,
>(rt: &R, alloc: Global, load: WireLoad, out: &mut W) -> Result<(), TrialFault> {
    let times = load_at::<Brand, Brand, R>(rt, alloc, Site::new(alloc, load.venues)?, load)?;
    for (number, time) in (1u64..).zip(times.iter()) {
        writeln!(out, "{number} {time}")?;
    }
    Ok(())
}
