//! Days over links in memory: links that fail, that carry a byte a call, and that bring nothing but noise; sessions
//! that close while legs are placed, and whose numbers are spent.

use crate::course::{Beside, Course, Shuts};
use crate::day::{Played, play, play_noted};
use crate::worked::{COURSE, LEGS, LOSES};
use day_trial::{DayFault, Outcome, TRADES_SIX, memory_link};
use exchange_sim::{MemoryPlan, Plan};
use session_worker::EndReason;
use std::alloc::Global;
use std::fmt::Write;
use std::sync::Wait;
use trial::{Order, TEN};

/// A day.
#[derive(Clone, Copy, Debug)]
pub struct Row {
    name: &'static str,
    plan: MemoryPlan,
    course: Course<'static>,
    shows: Shows,
}

/// What is printed of a day.
#[derive(Clone, Copy, Debug)]
enum Shows {
    /// All of it.
    Everything,
    /// All of it but the number of the next message: how many the session writes by itself depends on the turns that
    /// the bytes of a message take.
    Ends,
    /// That legs and connections are lost, and nothing is left open. How many are depends on which.
    Losses,
}

const ONE: Order = Order { shares: 1, ..TEN };

/// A link on which every call succeeds, and carries all there is, to an exchange that trades six shares of each order.
const FAULTLESS: MemoryPlan = MemoryPlan {
    exchange: TRADES_SIX,
    fails_at: 0,
    most_written: usize::MAX,
    most_read: usize::MAX,
    noise: None,
};

/// The same, which takes a byte a write and gives one a read.
const BY_THE_BYTE: MemoryPlan = MemoryPlan {
    most_written: 1,
    most_read: 1,
    ..FAULTLESS
};

/// Message 15 is the last that a session may write. So of fourteen legs thirteen are sent, twelve of them first; once the
/// connection ends there is no number for a Logon, and the session is over with the legs sent still in doubt.
const SPENT: Course<'static> = Course {
    early: &[],
    sweeps: &[&[ONE; 12], &[ONE; 2]],
    shuts: Shuts::Never,
    max_number: 16,
    ..COURSE
};

pub const ROWS: [Row; 8] = [
    // The worker writes 26 messages: the Logon, a fence, 22 orders, a fence and the Logout. Behind one more the
    // connection would be cut.
    Row {
        name: "all is dealt with",
        plan: MemoryPlan {
            exchange: Plan {
                cut_after: 27,
                ..TRADES_SIX
            },
            ..FAULTLESS
        },
        course: COURSE,
        shows: Shows::Everything,
    },
    Row {
        name: "a byte a call",
        plan: BY_THE_BYTE,
        course: COURSE,
        shows: Shows::Ends,
    },
    // Legs are lost with the message and with the connection, and the others are dealt with.
    Row {
        name: "a loss and a cut",
        plan: MemoryPlan {
            exchange: LOSES,
            ..FAULTLESS
        },
        course: COURSE,
        shows: Shows::Losses,
    },
    Row {
        name: "a loss and a cut, a byte a call",
        plan: MemoryPlan {
            exchange: LOSES,
            ..BY_THE_BYTE
        },
        course: COURSE,
        shows: Shows::Losses,
    },
    Row {
        name: "nothing but noise",
        plan: MemoryPlan {
            noise: Some(b'x'),
            most_read: 64,
            ..FAULTLESS
        },
        course: Course {
            turn_limit: 1_000,
            ..COURSE
        },
        shows: Shows::Everything,
    },
    // Three sweeps of 32 legs are released, the first beside a Heartbeat, the others each beside a leg of the first, and
    // then the gate is shut: three legs are sent by then, and the others are withdrawn, of which the ring has room for 64.
    Row {
        name: "a close while legs are placed",
        plan: FAULTLESS,
        course: Course {
            early: &[],
            sweeps: &[&[ONE; 32], &[ONE; 32], &[ONE; 32]],
            beside: Beside::Writes,
            pause: 0,
            ..COURSE
        },
        shows: Shows::Everything,
    },
    // The connection ends by a failed call when all was reported.
    Row {
        name: "numbers are spent, and a call fails",
        plan: MemoryPlan {
            fails_at: 60,
            ..FAULTLESS
        },
        course: SPENT,
        shows: Shows::Everything,
    },
    // It ends behind the last leg sent, which then isn't reported.
    Row {
        name: "numbers are spent, and the connection is cut",
        plan: MemoryPlan {
            exchange: Plan {
                cut_after: 15,
                ..TRADES_SIX
            },
            ..FAULTLESS
        },
        course: SPENT,
        shows: Shows::Everything,
    },
];

/// Writes that legs and connections were lost, or not, and what is left open.
fn write_losses(outcome: &Outcome, text: &mut String) -> Result<(), DayFault> {
    let end = outcome.only()?;
    let reason = end.reason;
    let taken = end.taken;
    let in_doubt = end.in_doubt;
    let still_open = outcome.report.still_open;
    let loses_legs = end.accepted < Some(LEGS - 2);
    let loses_connections = end.connections > 1;
    writeln!(
        text,
        "worker {reason:?}: {taken} legs taken, {in_doubt} in doubt, {still_open} shares open; \
         legs were lost: {loses_legs}; connections were lost: {loses_connections}"
    )?;
    Ok(())
}

impl Row {
    /// Plays the day, and writes what became of it.
    pub fn tell(&self, rt: &impl Wait, alloc: Global, text: &mut String) -> Result<(), DayFault> {
        let outcome = play(rt, alloc, memory_link(alloc, self.plan)?, self.course)?;
        let name = self.name;
        writeln!(text, "day: {name}")?;
        match self.shows {
            Shows::Everything => Ok(outcome.write_all(text)?),
            Shows::Ends => Ok(outcome.write_ends(text)?),
            Shows::Losses => write_losses(&outcome, text),
        }
    }
}

/// The most calls of a link that fail in turn.
const MOST_CALLS: u64 = 1_000;

/// Whether the day in which the call of this number fails has such a call. It must end with all legs taken.
fn fails_once(
    rt: &impl Wait,
    alloc: Global,
    exchange: Plan,
    fails_at: u64,
) -> Result<bool, DayFault> {
    let plan = MemoryPlan {
        exchange,
        fails_at,
        ..FAULTLESS
    };
    let Played {
        outcome,
        before_last: _,
        calls,
    } = play_noted(rt, alloc, memory_link(alloc, plan)?, COURSE)?;
    let end = outcome.only()?;
    if end.reason != EndReason::Closed || end.taken != LEGS {
        return Err(DayFault::Call(fails_at));
    }
    Ok(calls >= fails_at)
}

/// How many calls of the link fail in turn, each in a day of its own.
fn failed_calls(rt: &impl Wait, alloc: Global, exchange: Plan) -> Result<u64, DayFault> {
    for fails_at in 1..MOST_CALLS {
        if !fails_once(rt, alloc, exchange, fails_at)? {
            return Ok(fails_at - 1);
        }
    }
    Err(DayFault::Call(MOST_CALLS))
}

/// Fails each call of the link in turn, and writes that the days end with all legs taken.
pub fn tell_failed_calls(rt: &impl Wait, alloc: Global, text: &mut String) -> Result<(), DayFault> {
    for exchange in [TRADES_SIX, LOSES] {
        let is_enough = failed_calls(rt, alloc, exchange)? > 60;
        writeln!(
            text,
            "each call fails in turn: all legs are taken; more than 60 calls: {is_enough}"
        )?;
    }
    Ok(())
}
