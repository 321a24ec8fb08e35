//! Workers over loopback, each with an exchange that says what it must not say.

use crate::course::{Course, Shuts};
use crate::day::play;
use crate::worked::COURSE;
use day_trial::{DayFault, FENCE, LOGON, Outcome, Said, Shown, frames_of};
use exchange_sim::{Port, serve_raw};
use link::{Poller, Rest, TcpLink};
use session_worker::Pace;
use std::alloc::Global;
use std::fmt::Write;
use std::net::{Net, SocketAddr, TcpListener, TcpStream};
use std::sync::Wait;
use std::thread::{Threads, join};
use std::time::Clock;
use trial::TrialFault;

/// What an exchange says until the worker gives up its connection. By then it has written the Logon, once that is
/// answered the fence, and a Logout where the exchange logs out.
const DAYS: [&[Said]; 13] = [
    // A ResendRequest from no number, from one that wasn't sent yet, and to one before the first.
    &[LOGON, FENCE, ("2", "49=B|34=3|7=0|16=0|")],
    &[LOGON, FENCE, ("2", "49=B|34=3|7=3|16=0|")],
    &[LOGON, FENCE, ("2", "49=B|34=3|7=2|16=1|")],
    // A SequenceReset that is no GapFill, and a GapFill to its own number.
    &[LOGON, FENCE, ("4", "49=B|34=3|36=5|")],
    &[LOGON, FENCE, ("4", "49=B|34=3|123=Y|36=3|")],
    // A number that was there before, a second Logon, another sender, and a message without a number.
    &[LOGON, FENCE, ("0", "49=B|34=2|")],
    &[LOGON, FENCE, ("A", "49=B|34=3|98=0|108=30|")],
    &[LOGON, FENCE, ("0", "49=C|34=3|")],
    &[LOGON, FENCE, ("0", "49=B|")],
    // A message before the Logon.
    &[FENCE],
    // A Logout; and one behind a message that ends nothing: a repeated one, and a ResendRequest of what was sent.
    &[LOGON, FENCE, ("5", "49=B|34=3|")],
    &[LOGON, FENCE, ("0", "49=B|34=2|43=Y|"), ("5", "49=B|34=3|")],
    &[
        LOGON,
        FENCE,
        ("2", "49=B|34=3|7=1|16=1|"),
        ("5", "49=B|34=4|"),
    ],
];

/// How many turns the worker takes at most in which there is nothing to do: each of them waits a millisecond.
const MOST_TURNS: u64 = 2_000;

/// A sweep is placed before the worker's first turn, and the gate is shut once the connection is given up.
const ONE_CONNECTION: Course<'static> = Course {
    sweeps: &[],
    shuts: Shuts::AfterConnection,
    pace: Pace::Turns {
        quiet_turns: MOST_TURNS,
        silent_turns: MOST_TURNS,
    },
    turn_limit: MOST_TURNS,
    ..COURSE
};

/// How many turns the exchange serves: more than the worker takes, so that it doesn't end the connection.
const MOST_SERVED: u64 = 3 * MOST_TURNS;

/// The day of a worker over a link, with one connection.
fn played<K: Shown>(rt: &impl Wait, alloc: Global, link: K) -> Result<Outcome, DayFault> {
    play(rt, alloc, link, ONE_CONNECTION)
}

/// The day of a worker over a socket.
fn worker_day<R: Net + Wait + Clock>(
    rt: &R,
    alloc: Global,
    addr: SocketAddr,
) -> Result<Outcome, DayFault> {
    let poller = Poller::new(rt, alloc)?;
    played(rt, alloc, TcpLink::new(rt, addr, poller, Rest::Sleep))
}

/// The day of a worker whose exchange says this, over a socket.
fn hostile_day<R: Net<Listener = TcpListener, Stream = TcpStream> + Threads + Wait + Clock + Sync>(
    rt: &R,
    alloc: Global,
    says: &[Said],
) -> Result<Outcome, DayFault> {
    let frames = frames_of(alloc, says)?;
    let mut port = Port::open(rt, alloc)?;
    let addr = port.addr()?;
    let (served, outcome) = join(
        rt,
        || serve_raw(&mut port, frames.as_slice(), MOST_SERVED),
        || worker_day(rt, alloc, addr),
    );
    if !served {
        return Err(DayFault::Trial(TrialFault::Refused));
    }
    outcome
}

/// Writes what each exchange says, and how the worker gave up its connection.
pub fn tell_hostile<
    R: Net<Listener = TcpListener, Stream = TcpStream> + Threads + Wait + Clock + Sync,
>(rt: &R, alloc: Global, text: &mut String) -> Result<(), DayFault> {
    for says in DAYS {
        text.push_str("day:")?;
        for (kind, fields) in says {
            write!(text, " < 35={kind}|{fields}")?;
        }
        let outcome = hostile_day(rt, alloc, says)?;
        text.push_str("\n")?;
        outcome.write_all(text)?;
    }
    Ok(())
}
