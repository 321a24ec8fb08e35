//! What a run is asked to do.

ghost use Rattle.std.specs.Prelude.{◌≤◌, IfOk};

use crate::expected::Expected;
use bench_core::{DayPart, MAX_DAY, ReplayPart, run_day, run_replay};
use bench_fault::BenchFault;
use bench_threads::{Load, ThreadsPart, run_threads, run_turns};
use bench_wire::{WireLoad, run_wire};
use link::Rest;
use std::alloc::Global;
use std::io::Write;
use std::net::{Net, TcpListener, TcpStream};
use std::sync::Wait;
use std::thread::Threads;
use std::time::Clock;
use trial::{TrialFault, number_to};

/// The most turns of a worker, and the most sweeps or legs that go before.
const MILLION: u64 = 1_000_000;

/// The most events of a script.
const MAX_EVENTS: u64 = 10_000_000;

/// The most callers.
const MAX_CALLERS: u64 = 64;

/// The greatest port with fifteen more behind it.
const MAX_PORT: u64 = 65_520;

/// The most venues.
const MAX_VENUES: u64 = 16;

/// A number of the command line, up to this one.
fn count_of(most: u64, text: &str, expected: Expected) -> Result<u64, BenchFault<Expected>>
    ensures { IfOk result (λ number. number ≤ most) }
{
    number_to(most, text).ok_or(BenchFault::Usage(expected))
}

fn day<W: Write>(
    alloc: Global,
    part: &str,
    before: &str,
    count: &str,
    out: &mut W,
) -> Result<(), BenchFault<Expected>> {
    let part = DayPart::named(part).ok_or(BenchFault::Usage(Expected::DayPart))?;
    let before = count_of(MILLION, before, Expected::Before)?;
    let count = count_of(MAX_DAY, count, Expected::Count)?;
    Ok(run_day(alloc, part, before, count, out)?)
}

fn replay<W: Write>(
    alloc: Global,
    part: &str,
    events: &str,
    out: &mut W,
) -> Result<(), BenchFault<Expected>> {
    let part = ReplayPart::named(part).ok_or(BenchFault::Usage(Expected::ReplayPart))?;
    let events = count_of(MAX_EVENTS, events, Expected::Events)?;
    Ok(run_replay(alloc, part, events, out)?)
}

fn threads<R: Threads + Wait + Clock + Sync, W: Write>(
    rt: &R,
    alloc: Global,
    words: (&str, &str, &str),
    out: &mut W,
) -> Result<(), BenchFault<Expected>> {
    let (part, callers, sweeps) = words;
    let part = ThreadsPart::named(part).ok_or(BenchFault::Usage(Expected::ThreadsPart))?;
    let callers = count_of(MAX_CALLERS, callers, Expected::Callers)?;
    let sweeps = count_of(MILLION, sweeps, Expected::Sweeps)?;
    let load = Load { callers, sweeps };
    Ok(run_threads(rt, alloc, part, load, out)?)
}

fn turns<R: Wait + Clock, W: Write>(
    rt: &R,
    alloc: Global,
    turns: &str,
    out: &mut W,
) -> Result<(), BenchFault<Expected>> {
    let turns = count_of(MILLION, turns, Expected::Turns)?;
    Ok(run_turns(rt, alloc, turns, out)?)
}

/// How a worker waits.
fn rest_of(text: &str) -> Result<Rest, BenchFault<Expected>> {
    match text {
        "sleep" => Ok(Rest::Sleep),
        "spin" => Ok(Rest::Spin),
        _ => Err(BenchFault::Usage(Expected::Rest)),
    }
}

fn wire<
    R: Net<Listener = TcpListener, Stream = TcpStream> + Threads + Wait + Clock + Sync,
    W: Write,
>(
    rt: &R,
    alloc: Global,
    port: &str,
    words: (&str, &str, &str, &str),
    out: &mut W,
) -> Result<(), BenchFault<Expected>> {
    let (venues, sweeps, pause, how) = words;
    let load = WireLoad {
        port: count_of(MAX_PORT, port, Expected::Port)? as u16,
        venues: count_of(MAX_VENUES, venues, Expected::Venues)? as u8,
        sweeps: count_of(MILLION, sweeps, Expected::WireSweeps)?,
        pause: count_of(MILLION, pause, Expected::Pause)?,
        how: rest_of(how)?,
    };
    Ok(run_wire(rt, alloc, load, out)?)
}

/// A little of each part.
fn run_each<R: Threads + Wait + Clock + Sync, W: Write>(
    rt: &R,
    alloc: Global,
    out: &mut W,
) -> Result<(), TrialFault> {
    run_day(alloc, DayPart::Place, 3, 2, out)?;
    run_replay(alloc, ReplayPart::Run, 7_000, out)?;
    let load = Load {
        callers: 8,
        sweeps: 30,
    };
    run_threads(rt, alloc, ThreadsPart::Count, load, out)?;
    run_turns(rt, alloc, 100, out)
}

/// Does what the words of the command line ask for, of which the first is the program's own name.
pub fn run<
    R: Net<Listener = TcpListener, Stream = TcpStream> + Threads + Wait + Clock + Sync,
    W: Write,
>(rt: &R, alloc: Global, words: &[String], out: &mut W) -> Result<(), BenchFault<Expected>> {
    match words {
        [_] => Ok(run_each(rt, alloc, out)?),
        [_, name, a] if name.as_str() == "turn" => turns(rt, alloc, a.as_str(), out),
        [_, name, a, b] if name.as_str() == "replay" => replay(alloc, a.as_str(), b.as_str(), out),
        [_, name, a, b, c] if name.as_str() == "day" => {
            day(alloc, a.as_str(), b.as_str(), c.as_str(), out)
        }
        [_, name, a, b, c] if name.as_str() == "threads" => {
            threads(rt, alloc, (a.as_str(), b.as_str(), c.as_str()), out)
        }
        [_, name, a, b, c, d, e] if name.as_str() == "wire" => {
            let words = (b.as_str(), c.as_str(), d.as_str(), e.as_str());
            wire(rt, alloc, a.as_str(), words, out)
        }
        _ => Err(BenchFault::Usage(Expected::Request)),
    }
}
