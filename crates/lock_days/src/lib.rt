//! Days at a lock of the desk, with callers, gates, rings and workers' seats.
//!
//! `tell_all` writes what each call answers, and how the desk, the book, the seats and the rings stand then; then days
//! in threads, and what the sums are at their end. Each call that is refused memory is made again:
//! `checks/built/lock_days` runs the first day, by `tell_refused`, with its first growth of memory refused, then its
//! second, and so on: it must always write the same.
#![tactic(auto)]

mod answer;
mod calls;
mod day;
mod days;
mod ending;
mod split;
mod standing;
mod swapped;
mod threads;
mod turn;

use crate::day::told;
use crate::days::{DAYS, REFUSED};
use crate::split::split_seats;
use crate::swapped::swapped_ends;
use crate::threads::run_crowd;
use std::alloc::Global;
use std::io::Write;
use std::sync::Wait;
use std::thread::Threads;
use trial::TrialFault;

/// Tells all days.
pub fn tell_all<R: Threads + Wait + Sync, W: Write>(
    rt: &R,
    alloc: Global,
    out: &mut W,
) -> Result<(), TrialFault> {
    for day in DAYS {
        out.write_all(told(rt, alloc, day)?.as_bytes())?;
    }
    let split = split_seats(rt, alloc)?;
    writeln!(out, "1024 seats: placed {split:?}")?;
    let swapped = swapped_ends(rt, alloc)?;
    writeln!(out, "the ends of two venues, swapped: queues {swapped:?}")?;
    let crowd = run_crowd(rt, alloc)?;
    writeln!(out, "{crowd}")?;
    Ok(())
}

/// Tells the day on which memory is refused.
pub fn tell_refused<W: Write>(
    rt: &impl Wait,
    alloc: Global,
    out: &mut W,
) -> Result<(), TrialFault> {
    out.write_all(told(rt, alloc, REFUSED)?.as_bytes())?;
    Ok(())
}
