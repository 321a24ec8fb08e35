//! A lock and a collector of one run.

ghost use Rattle.std.specs.Prelude.{◌≡◌, map};

use crate::{Site, TrialFault};
use exec_collector::{Accounts, Collector, WorkerSeat};
use release_lock::{CallerSeat, Opened, ReleaseLock, Run, VenueDrain};
use std::alloc::Global;

/// What the worker of a venue is given: the drain of its ring, and its seat.
#[derive(Drop)]
pub struct Post<L: Run, M: Accounts> {
    pub drain: VenueDrain<L>,
    pub seat: WorkerSeat<M>,
}

/// A lock and a collector of one run, the seat of the first caller, and the post of each venue, in their order.
#[derive(Drop)]
pub struct Floor<L: Run, M: Accounts> {
    pub lock: ReleaseLock<L>,
    pub collector: Collector<M>,
    pub seat: CallerSeat<L>,
    pub posts: Vec<Post<L, M>>,
    ghost tied: { L.sweeps ≡ M.sweeps },
}

impl<L: Run, M: Accounts> Floor<L, M> {
    /// A floor on which nothing was done.
    pub fn open(alloc: Global, site: Site) -> Result<Floor<L, M>, TrialFault>
        requires lock { (site.callers.name ≡ L.name) × (L.parts ≡ 1024)
            × (L.queues ≡ map (λ ends. ends.0.table) site.rings.items) × (site.callers.slips ≡ L.slips) }
        requires book { (site.workers.name ≡ M.name) × (M.parts ≡ site.venues) × (site.workers.lists ≡ M.lists) }
        requires sweeps { (site.workers.sweeps ≡ M.sweeps) × (L.sweeps ≡ M.sweeps) }
    {
        let Site {
            venues,
            callers,
            workers,
            rings,
        } = site;
        let (collector, seats, sweeps) = Collector::<M>::new(alloc, venues, workers)?;
        let opened = ReleaseLock::<L>::new(alloc, venues, callers, rings, sweeps)?;
        let Opened { lock, seat, drains } = opened;
        let posts = posts_of(alloc, drains, seats)?;
        Ok(Floor {
            lock,
            collector,
            seat,
            posts,
        })
    }
}

/// A post of each drain, with the seat at its place, in order.
fn posts_of<L: Run, M: Accounts>(
    alloc: Global,
    drains: Vec<VenueDrain<L>>,
    seats: Vec<WorkerSeat<M>>,
) -> Result<Vec<Post<L, M>>, TrialFault> {
    let mut posts = Vec::with_capacity(alloc, drains.len())?;
    for (drain, seat) in drains.into_iter().zip(seats) {
        posts.push(Post { drain, seat })?;
    }
    Ok(posts)
}
