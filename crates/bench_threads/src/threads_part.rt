//! What the lock costs under threads: callers release sweeps at the lock of the desk while sixteen workers pop their
//! legs, and then do the same at plain queues behind one lock.

mod locked;
mod outcome;
mod plain;

use leg::Sweep;
use locked::at_lock;
use outcome::Outcome;
use plain::at_queues;
use std::alloc::Global;
use std::io::Write;
use std::sync::Wait;
use std::thread::Threads;
use std::time::Clock;
use trial::{TrialFault, sweep_each};

/// How many venues there are, and how many legs a sweep has, one for each.
const VENUES: u8 = 16;

/// The most turns of a caller for a sweep, and of a worker that finds no leg.
const MAX_TURNS: u64 = 1_000_000_000;

/// What a run prints.
#[derive(Clone, Copy, Debug, PartialEq, Eq)]
pub enum ThreadsPart {
    /// What was released and popped, the same in each run.
    Count,
    /// How many sweeps a second were released.
    Time,
}

impl ThreadsPart {
    /// The part of this name.
    pub fn named(name: &str) -> Option<ThreadsPart> {
        match name {
            "count" => Some(ThreadsPart::Count),
            "time" => Some(ThreadsPart::Time),
            _ => None,
        }
    }
}

/// How many callers there are, and how many sweeps each releases.
#[derive(Clone, Copy, Debug)]
pub struct Load {
    pub callers: u64,
    pub sweeps: u64,
}

impl Load {
    /// The sweeps of all callers.
    fn all_sweeps(&self) -> u64 {
        self.callers.saturating_mul(self.sweeps)
    }
}

/// Buy 100 IBM at 10 dollars at each of the venues.
fn worked_sweep(alloc: Global) -> Result<Sweep, TrialFault> {
    sweep_each(alloc, VENUES, 100)
}

/// Refuses an outcome in which a sweep wasn't released or a leg wasn't popped.
fn is_done(outcome: Outcome, load: Load) -> Result<Outcome, TrialFault> {
    let sweeps = load.all_sweeps();
    let legs = sweeps.saturating_mul(u64::from(VENUES));
    if outcome.sweeps != sweeps || outcome.legs != legs {
        return Err(TrialFault::Refused);
    }
    Ok(outcome)
}

/// The same load at the lock and at plain queues, with the line that tells of both.
pub fn run_threads<R: Threads + Wait + Clock + Sync, W: Write>(
    rt: &R,
    alloc: Global,
    part: ThreadsPart,
    load: Load,
    out: &mut W,
) -> Result<(), TrialFault> {
    let lock = is_done(at_lock(rt, alloc, load)?, load)?;
    let plain = is_done(at_queues(rt, alloc, load)?, load)?;
    match part {
        ThreadsPart::Count => writeln!(out, "lock: {lock}; plain queues: {plain}")?,
        ThreadsPart::Time => {
            let (lock, plain) = (lock.rate(), plain.rate());
            writeln!(out, "sweeps a second: lock {lock}, plain queues {plain}")?;
        }
    }
    Ok(())
}
