//! The callers of a day: each takes its lines, in order, and answers each.

ghost use Rattle.std.specs.Prelude.{◌≡◌, ◌≢◌, None, Some, true, option_map, IfSome};
ghost use Rattle.desk_floor.specs.Release.{IsAnswered, placed_after};
ghost use Rattle.desk_talk.specs.Logged.{without_token};
ghost use Rattle.desk_talk.specs.Rights.{lacking};
ghost use Rattle.desk_talk.specs.Seat.{own_parts};

use crate::callers::Callers;
use crate::client::Client;
use crate::hold::{Hold, bare, hold_fault, hold_of};
use crate::hold_answer::HoldAnswer;
use crate::input_lines::{InputLines, Next};
use crate::rights::{Right, Rights, lacking};
use crate::said::Said;
use crate::status::tell_status;
use clock::UtcClock;
use day_log::LineLog;
use desk_answers::Answer;
use desk_floor::{Closing, Floor, TalkFault, Voice};
use desk_words::VenueName;
use exec_collector::Accounts;
use json_lines::Line;
use kept_link::Telling;
use leg::VenueId;
use release_lock::{CallerSeat, Run};
use std::alloc::Global;
use std::io::{Read, Write};
use std::sync::Wait;
use std::thread;
use std::time::{Clock, Duration};
use sweep_refs::Submission;
use sweep_text::{Command, read_line};

/// How many seconds a caller waits for a line before it looks how the day stands. The end of the workers ends the wait.
const LOOK_SECONDS: u64 = 60;

/// How many milliseconds pass between two looks whether the day is closing, once the input has ended.
const LOOK_MILLIS: u64 = 250;

/// For how many seconds a client's lines are answered at the end of the day.
const ENDING_SECONDS: u64 = 5;

/// How many lines are taken between two looks at the sweeps that have open shares.
const LINES_A_LOOK: u64 = 256;

/// One who sends lines.
#[derive(Drop)]
pub(crate) struct Caller<'c, L: Run, V: Write + Drop> {
    /// Where its lines are answered.
    pub voice: &'c Voice<V>,
    /// Its own seat; where it has none, its sweeps are counted on the one that the clients of the day share.
    pub seat: Option<CallerSeat<L>>,
    pub may: Rights,
    /// What is known of it where it is a client on a connection, and not the standard input.
    pub client: Option<Client>,
}

/// What the caller of the standard input leaves.
#[derive(Drop)]
pub struct LinesEnd<L: Run> {
    pub seat: CallerSeat<L>,
    /// Why no line was taken any more before the input ended, if that is so.
    pub broken_off: Option<TalkFault>,
}

/// Takes the lines of the standard input and answers each, and counts what is placed on this seat. It begins once the
/// workers run, and waits until each venue is up, but no longer than two seconds. With `close`, or where input or
/// output fails, the day is to close; with the end of the input too, unless it serves on. Where no worker runs within
/// ten seconds the day is given up, and it leaves nothing.
pub fn take_lines<
    L: Run,
    M: Accounts,
    W: Write + Drop,
    J: Telling,
    I: Read + Drop,
    R: Wait + Clock,
>(
    rt: &R,
    alloc: Global,
    floor: &Floor<L, M, W, J>,
    callers: &Callers,
    seat: CallerSeat<L>,
    lines: InputLines<I>,
) -> Option<LinesEnd<L>>
    ensures { IfSome result (λ end. end.seat.parts ≡ seat.parts) }
{
    let mut lines = lines;
    let mut caller = Caller {
        voice: &floor.voice,
        seat: Some(seat),
        may: Rights::ALL,
        client: None,
    };
    if !floor.signals.awaits(rt, &floor.signals.workers) {
        floor.give_up();
        return None;
    }
    floor.await_venues(rt);
    let broken_off = match log_lines(rt, alloc, floor, callers, &mut caller, None, &mut lines) {
        Ok(()) => {
            if floor.manner.serves {
                await_close(rt, floor);
            }
            None
        }
        Err(fault) => Some(fault),
    };
    floor.begin_close();
    let Caller {
        voice: _,
        seat,
        may: _,
        client: _,
    } = caller;
    let Some(seat) = seat else { unreachable!() };
    Some(LinesEnd { seat, broken_off })
}

/// Takes and answers lines to the end of the input, and logs them, if a log is kept, with who sends them, if that is
/// known.
pub(crate) fn log_lines<L, M, W, J, V, I, R>(
    rt: &R,
    alloc: Global,
    floor: &Floor<L, M, W, J>,
    callers: &Callers,
    caller: &mut Caller<'_, L, V>,
    name: Option<&str>,
    lines: &mut InputLines<I>,
) -> Result<(), TalkFault>
where
    L: Run,
    M: Accounts,
    W: Write + Drop,
    J: Telling,
    V: Write + Drop,
    I: Read + Drop,
    R: Wait + Clock,
    ensures { own_parts caller.new.seat ≡ own_parts caller.old.seat }
{
    let mut log = LineLog::new(rt, alloc, UtcClock::new(rt), floor.line_log()?);
    log.speak_for(name);
    answer_lines(rt, alloc, floor, callers, caller, lines, &mut log)
}

/// Takes and answers lines to the end of the input. Once the workers have ended only those are answered still that were
/// read with the ones before; a client's for five seconds.
fn answer_lines<'a, L, M, W, J, V, I, R, C>(
    rt: &'a R,
    alloc: Global,
    floor: &Floor<L, M, W, J>,
    callers: &Callers,
    caller: &mut Caller<'_, L, V>,
    lines: &mut InputLines<I>,
    log: &mut LineLog<'a, R, C>,
) -> Result<(), TalkFault>
where
    L: Run,
    M: Accounts,
    W: Write + Drop,
    J: Telling,
    V: Write + Drop,
    I: Read + Drop,
    R: Wait + Clock,
    C: clock::Clock + Drop,
    ensures { own_parts caller.new.seat ≡ own_parts caller.old.seat }
{
    let mut ending_since = None;
    for _ in rt.forever() {
        if floor.signals.is_ending() {
            let is_late = is_late(rt, &mut ending_since);
            if !lines.has_more() || (caller.client.is_some() && is_late) {
                return Ok(());
            }
        }
        match lines.next(Duration::from_secs(LOOK_SECONDS))? {
            Next::Line => {
                answer_line(rt, alloc, floor, callers, caller, lines, log)?;
                if lines.number() % LINES_A_LOOK == 0 {
                    callers.look(rt, &floor.collector);
                }
            }
            Next::Part => {}
            Next::Nothing => callers.look(rt, &floor.collector),
            Next::End => return Ok(()),
        }
        caller.tell_news(rt, floor)?;
    }
    Ok(())
}

/// Whether the first look was five seconds ago, or the clock can't be read.
fn is_late(rt: &impl Clock, first_look: &mut Option<Duration>) -> bool {
    let Ok(now) = rt.monotonic() else {
        return true;
    };
    let first = first_look.unwrap_or(now);
    *first_look = Some(first);
    now.saturating_sub(first) >= Duration::from_secs(ENDING_SECONDS)
}

/// Waits until the day is closing, or its workers have ended.
fn await_close<L: Run, M: Accounts, W: Write + Drop, J: Telling, R: Wait + Clock>(
    rt: &R,
    floor: &Floor<L, M, W, J>,
) {
    for _ in rt.forever() {
        if floor.signals.is_closing() || floor.signals.is_ending() {
            return;
        }
        thread::sleep(rt, Duration::from_millis(LOOK_MILLIS));
    }
}

/// Answers the line that was read last.
fn answer_line<'a, L, M, W, J, V, I, R, C>(
    rt: &'a R,
    alloc: Global,
    floor: &Floor<L, M, W, J>,
    callers: &Callers,
    caller: &mut Caller<'_, L, V>,
    lines: &InputLines<I>,
    log: &mut LineLog<'a, R, C>,
) -> Result<(), TalkFault>
where
    L: Run,
    M: Accounts,
    W: Write + Drop,
    J: Telling,
    V: Write + Drop,
    I: Read + Drop,
    R: Wait + Clock,
    C: clock::Clock + Drop,
    ensures { own_parts caller.new.seat ≡ own_parts caller.old.seat }
{
    let line = lines.line();
    let asked = bare(line);
    if let Some(hold) = hold_of(floor.names.as_slice(), asked) {
        return answer_hold(rt, floor, caller, line, hold, log);
    }
    let command = match read_line(alloc, floor.names.as_slice(), line) {
        Ok(command) => command,
        Err(_) if caller.asks_to_follow(asked) => {
            note_line(rt, floor, log, line);
            return caller.follow(rt, alloc, floor, callers);
        }
        Err(fault) => {
            let number = lines.number();
            let fault = hold_fault(asked).unwrap_or(fault);
            note_line(rt, floor, log, line);
            return answer(
                rt,
                floor,
                caller.voice,
                log,
                &Answer::BadLine { number, fault },
            );
        }
    };
    if let Some(right) = lacking(caller.may, &command) {
        note_line(rt, floor, log, line);
        return answer(rt, floor, caller.voice, log, &Said::MayNot(right));
    }
    carry_out(rt, floor, callers, caller, line, command, log)
}

/// Holds or frees what a line asks for, if its caller has the right to, and answers it. The line is logged afterwards.
fn answer_hold<'a, L, M, W, J, V, R, C>(
    rt: &'a R,
    floor: &Floor<L, M, W, J>,
    caller: &Caller<'_, L, V>,
    line: &[u8],
    asked: Hold,
    log: &mut LineLog<'a, R, C>,
) -> Result<(), TalkFault>
where
    L: Run,
    M: Accounts,
    W: Write + Drop,
    J: Telling,
    V: Write + Drop,
    R: Wait + Clock,
    C: clock::Clock + Drop,
{
    if !caller.may.halt {
        note_line(rt, floor, log, line);
        return answer(rt, floor, caller.voice, log, &Said::MayNot(Right::Halt));
    }
    let held = hold(rt, floor, caller.may, asked);
    note_line(rt, floor, log, line);
    match held {
        Some(held) => answer(rt, floor, caller.voice, log, &held),
        None => Ok(()),
    }
}

/// Holds or frees, and gives what that is answered; none where the desk has no such venue.
fn hold<'f, L: Run, M: Accounts, W: Write + Drop, J: Telling, R: Wait + Clock>(
    rt: &R,
    floor: &'f Floor<L, M, W, J>,
    may: Rights,
    asked: Hold,
) -> Option<HoldAnswer<'f>>
    requires { may.halt ≡ true }
{
    match asked {
        Hold::Halt => {
            let stopped = floor.halt(rt);
            match stopped.sending {
                Some(venue) => Some(HoldAnswer::Halting(name_of(floor, venue)?)),
                None if stopped.is_kept => Some(HoldAnswer::Halted),
                None => Some(HoldAnswer::HaltedUnkept),
            }
        }
        Hold::Resume => {
            if floor.resume(rt) {
                Some(HoldAnswer::Resumed)
            } else {
                Some(HoldAnswer::ResumedUnkept)
            }
        }
        Hold::Pause(venue) => {
            let name = name_of(floor, venue)?;
            match floor.pause(rt, venue).sending {
                Some(venue) => Some(HoldAnswer::Pausing(name_of(floor, venue)?)),
                None => Some(HoldAnswer::Paused(name)),
            }
        }
        Hold::Unpause(venue) => {
            let name = name_of(floor, venue)?;
            floor.unpause(rt, venue);
            Some(HoldAnswer::Unpaused(name))
        }
    }
}

/// The name of a venue, if the desk has it.
fn name_of<L: Run, M: Accounts, W: Write + Drop, J: Telling>(
    floor: &Floor<L, M, W, J>,
    venue: VenueId,
) -> Option<&VenueName> {
    floor.names.get(usize::from(venue.number()))
}

/// Carries out what a line asks for that its caller has the right to, and answers it.
fn carry_out<'a, L, M, W, J, V, R, C>(
    rt: &'a R,
    floor: &Floor<L, M, W, J>,
    callers: &Callers,
    caller: &mut Caller<'_, L, V>,
    line: &[u8],
    command: Command,
    log: &mut LineLog<'a, R, C>,
) -> Result<(), TalkFault>
where
    L: Run,
    M: Accounts,
    W: Write + Drop,
    J: Telling,
    V: Write + Drop,
    R: Wait + Clock,
    C: clock::Clock + Drop,
    requires may { lacking caller.old.may command ≡ None }
    ensures { own_parts caller.new.seat ≡ own_parts caller.old.seat }
{
    match command {
        Command::Sweep(submission) => {
            if floor.manner.waits {
                floor.await_room(rt, submission.sweep.legs.as_slice());
            }
            let may = caller.may;
            let answer = hand_in(rt, floor, may, &mut caller.seat, log, line, submission);
            caller.voice.say(rt, &answer)
        }
        Command::Nothing => {
            note_line(rt, floor, log, line);
            Ok(())
        }
        Command::Close => {
            note_line(rt, floor, log, line);
            let _shown = close(rt, floor, caller.may, caller.client.is_none());
            if caller.client.is_some() {
                return answer(rt, floor, caller.voice, log, &Said::Closes);
            }
            Ok(())
        }
        Command::Status => {
            note_line(rt, floor, log, line);
            tell_status(rt, floor, callers, caller.voice, log)
        }
    }
}

/// The day is to close, as it shows. By the standard input it is given up the second time; a client changes nothing
/// then.
fn close<'f, L: Run, M: Accounts, W: Write + Drop, J: Telling>(
    rt: &impl Wait,
    floor: &'f Floor<L, M, W, J>,
    may: Rights,
    is_input: bool,
) -> Closing<'f>
    requires { may.close ≡ true }
    ensures { result.of ≡ floor.now.signals.closing.id }
{
    if is_input {
        floor.close();
    }
    floor.ask_to_close(rt)
}

/// Hands a sweep in for a caller who may trade, on this seat, or where there is none on the one that the clients of the
/// day share, and gives what it is answered. The seat keeps its parts, and gains the sweep where it is placed.
fn hand_in<'f, 'a, L, M, W, J, R, C>(
    rt: &'a R,
    floor: &'f Floor<L, M, W, J>,
    may: Rights,
    seat: &mut Option<CallerSeat<L>>,
    log: &mut LineLog<'a, R, C>,
    line: &[u8],
    submission: Submission,
) -> Answer
where
    L: Run,
    M: Accounts,
    W: Write + Drop,
    J: Telling,
    R: Wait + Clock,
    C: clock::Clock + Drop,
    requires { may.trade ≡ true }
    ensures answer { result ≢ Answer.Closing → IsAnswered (Some floor.now.limits) floor.now.names.items
        floor.now.manner.wants_refs submission result }
    ensures parts { own_parts seat.new ≡ own_parts seat.old }
    ensures placed { option_map (λ s. s.placed) seat.new
        ≡ option_map (λ s. placed_after s.placed result submission.sweep.legs) seat.old }
{
    match seat {
        Some(seat) => floor
            .hand_in(rt, seat, log, line, submission)
            .unwrap_or(Answer::Closing),
        None => floor.hand_in_shared(rt, log, line, submission),
    }
}

/// Logs a line that asks for no sweep. It never stands between a sweep's line and its answer.
fn note_line<'a, L, M, W, J, R, C>(
    rt: &'a R,
    floor: &Floor<L, M, W, J>,
    log: &mut LineLog<'a, R, C>,
    line: &[u8],
)
where
    L: Run,
    M: Accounts,
    W: Write + Drop,
    J: Telling,
    R: Wait + Clock,
    C: clock::Clock + Drop,
{
    let _turn = floor.turn.lock(rt);
    log.taken(without_token(line));
}

/// A line as it is logged: a token that it names is left out.
fn without_token(line: &[u8]) -> &[u8]
    ensures { result.now ≡ without_token line.now }
{
    if line.starts_with(b"token ") {
        return &line[..5];
    }
    line
}

/// Answers a line that asks for no sweep, in the log too.
pub(crate) fn answer<'a, T, L, M, W, J, V, R, C>(
    rt: &'a R,
    floor: &Floor<L, M, W, J>,
    voice: &Voice<V>,
    log: &mut LineLog<'a, R, C>,
    answer: &T,
) -> Result<(), TalkFault>
where
    T: Line,
    L: Run,
    M: Accounts,
    W: Write + Drop,
    J: Telling,
    V: Write + Drop,
    R: Wait,
    C: clock::Clock + Drop,
{
    note_answer(rt, floor, log, answer);
    voice.say(rt, answer)
}

/// Logs the answer to a line that asks for no sweep. It never stands between a sweep's line and its answer.
fn note_answer<'a, T, L, M, W, J, R, C>(
    rt: &'a R,
    floor: &Floor<L, M, W, J>,
    log: &mut LineLog<'a, R, C>,
    answer: &T,
)
where
    T: Line,
    L: Run,
    M: Accounts,
    W: Write + Drop,
    J: Telling,
    R: Wait,
    C: clock::Clock + Drop,
{
    let _turn = floor.turn.lock(rt);
    log.answered(answer);
}
