//! Days of workers in threads, with callers in threads of their own.
//!
//! `tell` writes what is the same whatever the threads did: that every sweep was placed, that every worker closed with
//! as many legs taken, and that the sums and the audit agree.
#![tactic(auto)]

mod at_once;
mod meeting;

use crate::at_once::tell_at_once;
use crate::meeting::tell_meeting;
use day_trial::DayFault;
use std::alloc::Global;
use std::io::Write;
use std::sync::Wait;
use std::thread::Threads;
use std::time::Clock;

/// The days as lines.
fn told<R: Threads + Wait + Clock + Sync>(rt: &R, alloc: Global) -> Result<String, DayFault> {
    let mut text = String::new(alloc);
    tell_meeting(rt, alloc, &mut text)?;
    tell_at_once(rt, alloc, &mut text)?;
    Ok(text)
}

/// Tells the days.
pub fn tell<R: Threads + Wait + Clock + Sync, W: Write>(
    rt: &R,
    alloc: Global,
    out: &mut W,
) -> Result<(), DayFault> {
    Ok(out.write_all(told(rt, alloc)?.as_bytes())?)
}
