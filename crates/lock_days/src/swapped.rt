//! The ends of two workers in the wrong order.

use crate::threads::works;
use exec_collector::Accounts;
use release_lock::{Run, WrongQueue, check_queues};
use std::alloc::Global;
use std::sync::Wait;
use trial::{Floor, Order, Post, TEN, Trial, TrialFault, on_floor, sweep_of};

/// A leg for each of two venues.
const ORDERS: [Order; 2] = [TEN, Order { venue: 1, ..TEN }];

/// A leg is popped at each of two venues; then the ends stand in the wrong order.
#[derive(Drop)]
struct Swapped {
    alloc: Global,
}

impl<R: Wait> Trial<R> for Swapped {
    /// What the comparison of the queues tells.
    type End = Result<Result<(), WrongQueue>, TrialFault>;

    fn run<L: Run, M: Accounts>(
        self,
        rt: &R,
        floor: Floor<L, M>,
    ) -> Result<Result<(), WrongQueue>, TrialFault> {
        let alloc = self.alloc;
        let Floor {
            lock,
            collector,
            mut seat,
            mut posts,
        } = floor;
        for post in posts.iter() {
            lock.raise(rt, &post.drain)?;
        }
        lock.release(rt, &collector, sweep_of(alloc, &ORDERS)?, &mut seat)?;
        let mut ends = Vec::with_capacity(alloc, posts.len())?;
        posts.reverse();
        for post in posts {
            let Post { drain, seat: _ } = post;
            ends.push(works(rt, alloc, &lock, drain, 1).ok_or(TrialFault::Missing)?)?;
        }
        Ok(check_queues(lock.into_locked(), ends))
    }
}

/// What is told of the ends of two workers in the wrong order.
pub fn swapped_ends(rt: &impl Wait, alloc: Global) -> Result<Result<(), WrongQueue>, TrialFault> {
    on_floor(rt, alloc, 2, Swapped { alloc })?
}
