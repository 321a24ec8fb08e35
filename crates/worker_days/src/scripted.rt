//! Days over a link that gives what it is told to give, read by read: each frame that the worker writes is printed.

use crate::course::{Course, Shuts};
use crate::day::{Played, play_noted};
use crate::worked::COURSE;
use day_trial::{DayFault, FENCE, LOGON, Said, Script};
use session_worker::Pace;
use std::alloc::Global;
use std::fmt::Write;
use std::sync::Wait;
use trial::{Order, Parts, TEN};

/// An order of ten is taken, six shares of it are traded, and the rest is cancelled.
const REPORTS: &[Said] = &[
    (
        "8",
        "49=B|34=3|37=O1|17=E1|150=0|39=0|11=S1L1|55=IBM|54=1|151=10|14=0|6=0|",
    ),
    (
        "8",
        "49=B|34=4|37=O1|17=E2|150=F|39=1|11=S1L1|55=IBM|54=1|32=6|31=10|151=4|14=6|6=0|",
    ),
    (
        "8",
        "49=B|34=5|37=O1|17=E3|150=4|39=4|11=S1L1|55=IBM|54=1|151=0|14=6|6=0|",
    ),
];

/// The answer to the closing fence, and to the Logout.
const CLOSING: &[Said] = &[("0", "49=B|34=6|112=F4|")];

const LOGOUT: &[Said] = &[("5", "49=B|34=7|")];

const TWENTY: Order = Order { shares: 20, ..TEN };

/// A worker that writes a Heartbeat behind five turns without a write, and a fence behind twenty without a read.
const PACED: Course<'static> = Course {
    early: &[],
    sweeps: &[],
    shuts: Shuts::Never,
    max_number: 1_000,
    pace: Pace::Turns {
        quiet_turns: 5,
        silent_turns: 20,
    },
    turn_limit: 100,
    ..COURSE
};

/// A leg is released beside the third read, sent in the fourth turn, and booked in it. Beside the fifth read another
/// one is released and the gate shut: that leg is dropped.
pub(crate) const SENDS: Course<'static> = Course {
    sweeps: &[&[TEN], &[TWENTY]],
    pause: 1,
    shuts: Shuts::WithLastSweep,
    ..PACED
};

const QUIET_READS: &[&[Said]] = &[&[LOGON], &[FENCE]];

pub(crate) const SENDS_READS: &[&[Said]] = &[
    &[LOGON],
    &[FENCE],
    &[],
    REPORTS,
    &[],
    CLOSING,
    LOGOUT,
];

/// Writes what became of a day.
fn write_played(played: &Played, text: &mut String) -> Result<(), DayFault> {
    played.outcome.write_all(text)?;
    if let Some(totals) = played.before_last {
        let parts = Parts(totals);
        writeln!(text, "before the last sweep was released:{parts}")?;
    }
    Ok(())
}

/// A leg is sent and booked; then the gate is shut, and the next one is dropped. And a worker falls quiet that reads
/// nothing after its fence was answered in the second turn: it writes a Heartbeat in turns 6, 11, 16 and 21, a fence in
/// 22, Heartbeats again up to 42, where the connection ends, and Logons in 43 and 84.
pub fn tell_scripted(rt: &impl Wait, alloc: Global, text: &mut String) -> Result<(), DayFault> {
    for (name, reads, course) in [
        ("a leg is sent and another dropped", SENDS_READS, SENDS),
        ("nothing is said any more", QUIET_READS, PACED),
    ] {
        writeln!(text, "day: {name}")?;
        let played = play_noted(rt, alloc, Script::new(alloc, reads)?, course)?;
        write_played(&played, text)?;
    }
    Ok(())
}
