//! Callers and workers at plain queues behind one lock: what the lock of the desk is measured against.

use super::outcome::Outcome;
use super::{Load, MAX_TURNS, VENUES, worked_sweep};
use leg::{Routed, Sweep};
use std::alloc::{AllocError, Global};
use std::collections::VecDeque;
use std::sync::{Mutex, Wait};
use std::thread::{Threads, join, map_vec, yield_now};
use std::time::{Clock, Instant};
use trial::TrialFault;

/// The most orders that wait for a venue: as many as the desk and the ring of a venue have.
const MAX_WAITING: usize = 320;

/// The orders that wait for each venue.
#[derive(Drop)]
struct Queues {
    waiting: Vec<VecDeque<Routed>>,
}

impl Queues {
    fn new(alloc: Global) -> Result<Queues, TrialFault> {
        let mut waiting = Vec::with_capacity(alloc, usize::from(VENUES))?;
        for _ in 0..VENUES {
            waiting.push(VecDeque::new(alloc))?;
        }
        Ok(Queues { waiting })
    }

    /// Puts the orders of a sweep behind those of their venues; or none of them, where a venue has its most.
    fn release(&mut self, sweep: Sweep) -> Result<bool, AllocError> {
        for orders in self.waiting.iter() {
            if orders.len() >= MAX_WAITING {
                return Ok(false);
            }
        }
        for routed in sweep.legs.into_vec() {
            let venue = usize::from(routed.venue.number());
            if let Some(orders) = self.waiting.get_mut(venue) {
                orders.push_back(routed)?;
            }
        }
        Ok(true)
    }

    /// The next order of a venue.
    fn pop(&mut self, venue: usize) -> Option<Routed> {
        self.waiting.get_mut(venue)?.pop_front()
    }
}

/// Releases a sweep, and makes and releases it again while a venue has too many orders. Whether it was released.
fn releases(rt: &impl Wait, alloc: Global, queues: &Mutex<Queues>) -> bool {
    for _ in 0..MAX_TURNS {
        let Ok(sweep) = worked_sweep(alloc) else {
            return false;
        };
        match queues.lock(rt).release(sweep) {
            Ok(true) => return true,
            Ok(false) => yield_now(),
            Err(_) => return false,
        }
    }
    false
}

/// A caller releases so many sweeps. How many it did.
fn calls(rt: &impl Wait, alloc: Global, queues: &Mutex<Queues>, sweeps: u64) -> u64 {
    for done in 0..sweeps {
        if !releases(rt, alloc, queues) {
            return done;
        }
    }
    sweeps
}

/// A worker pops so many orders of a venue. How many it popped.
fn pops(rt: &impl Wait, queues: &Mutex<Queues>, venue: usize, orders: u64) -> u64 {
    let mut popped = 0;
    for _ in 0..MAX_TURNS {
        if popped >= orders {
            break;
        }
        match queues.lock(rt).pop(venue) {
            Some(_) => popped += 1,
            None => yield_now(),
        }
    }
    popped
}

/// The numbers from 0 up to this one.
fn numbers(alloc: Global, count: usize) -> Result<Vec<usize>, AllocError> {
    let mut numbers = Vec::with_capacity(alloc, count)?;
    for number in 0..count {
        numbers.push(number)?;
    }
    Ok(numbers)
}

/// So many callers at plain queues of sixteen venues, and a worker of each, each in a thread. The time is that of all
/// of them.
pub fn at_queues<R: Threads + Wait + Clock + Sync>(
    rt: &R,
    alloc: Global,
    load: Load,
) -> Result<Outcome, TrialFault> {
    let queues = Mutex::new(Queues::new(alloc)?);
    let callers = numbers(alloc, load.callers as usize)?;
    let venues = numbers(alloc, usize::from(VENUES))?;
    let sweeps = load.sweeps;
    let orders = load.all_sweeps();
    let queues = &queues;
    let start = Instant::now(rt)?;
    let (released, popped) = join(
        rt,
        || map_vec(rt, callers, &|_| calls(rt, alloc, queues, sweeps)),
        || map_vec(rt, venues, &|venue| pops(rt, queues, venue, orders)),
    );
    Ok(Outcome::of(&released?, &popped?, start.elapsed(rt)?))
}
