//! The keeper of a day: it tells what changes, and closes the day in order.

use crate::callers::Callers;
use crate::news::Told;
use change_count::ChangeCount;
use desk_floor::{Floor, TalkFault};
use exec_collector::Accounts;
use kept_link::Telling;
use release_lock::Run;
use std::alloc::Global;
use std::io::Write;
use std::sync::Wait;
use std::time::{Clock, Duration, Instant};

/// How many milliseconds pass between two tellings: so what comes in a burst is told once, and a lone change at once.
const TELL_MILLIS: u64 = 1;

/// How many pass where nothing is told but what the book doesn't take: so a quiet day's reports seldom wake the keeper.
const QUIET_MILLIS: u64 = 100;

/// How many seconds the keeper waits for a change before it looks by itself: what memory was wanted for is told then.
const LOOK_SECONDS: u64 = 1;

/// What is waited for. The end of the workers ends each wait.
#[derive(Clone, Copy)]
enum Until {
    /// The day is closing.
    Closing,
    /// No share is open, or the workers were told to stop.
    Resolved,
    /// The workers have ended.
    Ended,
}

/// Tells what changes until the workers have ended, and executions to the last one. Once the day is closing it waits
/// until no share is open, as long as the patience goes; then it tells once more what changed, and the workers are told
/// to stop.
pub fn keep<L: Run, M: Accounts, W: Write + Drop, J: Telling, R: Wait + Clock>(
    rt: &R,
    alloc: Global,
    floor: &Floor<L, M, W, J>,
    callers: &Callers,
) {
    let mut told = Some(Told::new(alloc, floor.manner));
    watch(rt, floor, callers, &mut told, Until::Closing, None);
    let patience = Some(floor.manner.patience);
    watch(rt, floor, callers, &mut told, Until::Resolved, patience);
    tell(rt, floor, callers, &mut told);
    floor.stop();
    watch(rt, floor, callers, &mut told, Until::Ended, None);
    if let Some(told) = &mut told {
        // No worker books any more.
        let _ = told.tell_executions(rt, floor);
    }
}

/// Whether what is waited for has come.
fn is_reached<L: Run, M: Accounts, W: Write + Drop, J: Telling>(
    rt: &impl Wait,
    floor: &Floor<L, M, W, J>,
    until: Until,
) -> bool {
    if floor.signals.is_ending() {
        return true;
    }
    match until {
        Until::Closing => floor.signals.is_closing(),
        Until::Resolved => floor.signals.are_stopped() || floor.is_resolved(rt),
        Until::Ended => false,
    }
}

/// Whether so many seconds have passed since this moment; they have where the clock can't be read.
fn is_over(clock: &impl Clock, begun: Option<Instant>, seconds: Option<u64>) -> bool {
    let Some(seconds) = seconds else {
        return false;
    };
    let Some(begun) = begun else {
        return true;
    };
    match begun.elapsed(clock) {
        Ok(passed) => passed >= Duration::from_secs(seconds),
        Err(_) => true,
    }
}

/// Tells what changes until that has come, for so many seconds at most, if a number is given. It sleeps while nothing
/// changes.
fn watch<L: Run, M: Accounts, W: Write + Drop, J: Telling, R: Wait + Clock>(
    rt: &R,
    floor: &Floor<L, M, W, J>,
    callers: &Callers,
    told: &mut Option<Told>,
    until: Until,
    seconds: Option<u64>,
) {
    let begun = Instant::now(rt).ok();
    let tells = told.is_some() || callers.listens;
    let changes = awaited(floor, tells, until);
    for _ in rt.forever() {
        let seen = changes.count();
        if is_reached(rt, floor, until) || is_over(rt, begun, seconds) {
            return;
        }
        tell(rt, floor, callers, told);
        if has_come_meanwhile(rt, floor, callers, until) {
            return;
        }
        changes.wait(rt, seen, Duration::from_secs(LOOK_SECONDS));
    }
}

/// The changes that are waited for: each where they are told, or may resolve the last share; else those of the day.
fn awaited<L: Run, M: Accounts, W: Write + Drop, J: Telling>(
    floor: &Floor<L, M, W, J>,
    tells: bool,
    until: Until,
) -> &ChangeCount {
    match until {
        Until::Resolved => floor.bells.news(),
        Until::Closing | Until::Ended => {
            if tells {
                floor.bells.news()
            } else {
                floor.bells.turns()
            }
        }
    }
}

/// Rests between two tellings, and says whether what is waited for has come.
fn has_come_meanwhile<L: Run, M: Accounts, W: Write + Drop, J: Telling, R: Wait + Clock>(
    rt: &R,
    floor: &Floor<L, M, W, J>,
    callers: &Callers,
    until: Until,
) -> bool {
    let seen = floor.bells.turns().count();
    if is_reached(rt, floor, until) {
        return true;
    }
    let are_told = floor.manner.tells_news || floor.manner.tells_executions;
    let tells = are_told || callers.are_followed(rt);
    let most = Duration::from_millis(rest_of(tells, until));
    floor.bells.turns().wait(rt, seen, most);
    false
}

/// How many milliseconds the keeper rests at most, unless the day takes a turn. Where it waits for the last share it
/// looks as often as on a day that tells what changes.
fn rest_of(tells: bool, until: Until) -> u64 {
    match until {
        Until::Resolved => TELL_MILLIS,
        Until::Closing | Until::Ended => { if tells { TELL_MILLIS } else { QUIET_MILLIS } }
    }
}

/// Tells what changed; where the output can't be written, nothing is told there any more. What memory is wanted for is
/// told at a later look. The connections that follow the day are to tell it too.
fn tell<L: Run, M: Accounts, W: Write + Drop, J: Telling>(
    rt: &impl Wait,
    floor: &Floor<L, M, W, J>,
    callers: &Callers,
    told: &mut Option<Told>,
) {
    callers.ring_followers(rt);
    let Some(news) = told else {
        return;
    };
    match news.tell(rt, floor, &floor.voice) {
        Ok(()) | Err(TalkFault::OutOfMemory) => {}
        Err(_) => *told = None,
    }
}
