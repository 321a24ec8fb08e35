//! Days of one worker, each with something that fails, and the audits of a day of two.
//!
//! `tell_all` writes what became of each day, whose parts it has compared: the shares of each sweep, the legs and
//! trades of the venue, and the audit; else it stops with what is wrong. `tell_refused` writes only what no fault may
//! change on the worked day, with a lost message and a connection that is cut: `checks/built/worker_days` runs it with
//! its first growth of memory refused, then its second, and so on: a worker that is refused memory gives up its
//! connection, and these lines stay the same.
#![tactic(auto)]

mod audits;
mod called_link;
mod course;
mod day;
mod hostile;
mod kept;
mod rows;
mod scripted;
mod worked;

use crate::audits::tell_audits;
use crate::day::play;
use crate::hostile::tell_hostile;
use crate::kept::tell_kept;
use crate::rows::{ROWS, tell_failed_calls};
use crate::scripted::tell_scripted;
use crate::worked::{COURSE, LOSES};
use day_trial::{DayFault, memory_link};
use exchange_sim::MemoryPlan;
use std::alloc::Global;
use std::io::Write;
use std::net::{Net, TcpListener, TcpStream};
use std::sync::Wait;
use std::thread::Threads;
use std::time::Clock;
use trial::TrialFault;

/// The most bytes that the worked day prints.
const MAX_TEXT: usize = 4_096;

/// What no fault may change on the worked day.
fn told_once(rt: &impl Wait, alloc: Global) -> Result<String, DayFault> {
    let link = memory_link(alloc, MemoryPlan::faultless(LOSES))?;
    let outcome = play(rt, alloc, link, COURSE)?;
    let mut text = String::with_capacity(alloc, MAX_TEXT)?;
    outcome.write_kept(&mut text)?;
    Ok(text)
}

/// The same. Where memory is refused to what stands round the worker, another day is told.
fn told(rt: &impl Wait, alloc: Global) -> Result<String, DayFault> {
    match told_once(rt, alloc) {
        Err(DayFault::Trial(TrialFault::OutOfMemory)) => told_once(rt, alloc),
        answer => answer,
    }
}

/// Tells what no fault may change on the worked day.
pub fn tell_refused<W: Write>(rt: &impl Wait, alloc: Global, out: &mut W) -> Result<(), DayFault> {
    Ok(out.write_all(told(rt, alloc)?.as_bytes())?)
}

/// All other days.
fn others_told<R: Net<Listener = TcpListener, Stream = TcpStream> + Threads + Wait + Clock + Sync>(
    rt: &R,
    alloc: Global,
) -> Result<String, DayFault> {
    let mut text = String::new(alloc);
    for row in &ROWS {
        row.tell(rt, alloc, &mut text)?;
    }
    tell_failed_calls(rt, alloc, &mut text)?;
    tell_scripted(rt, alloc, &mut text)?;
    tell_kept(rt, alloc, &mut text)?;
    tell_audits(rt, alloc, &mut text)?;
    tell_hostile(rt, alloc, &mut text)?;
    Ok(text)
}

/// Tells all days.
pub fn tell_all<
    R: Net<Listener = TcpListener, Stream = TcpStream> + Threads + Wait + Clock + Sync,
    W: Write,
>(rt: &R, alloc: Global, out: &mut W) -> Result<(), DayFault> {
    tell_refused(rt, alloc, out)?;
    Ok(out.write_all(others_told(rt, alloc)?.as_bytes())?)
}
