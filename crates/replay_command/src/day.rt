//! A day that runs, line by line.
ghost use Rattle.std.specs.Prelude.{◌≡◌, ◌≤◌, ◌<◌, ◌+◌, ◌-◌, ◌^◌, false, true, IfOk, IfSome, OnOk};
ghost use Rattle.schedule.specs.Script.{lines_of};
ghost use Rattle.script.specs.DayScript.{day_said_by};
ghost use Rattle.replay_command.specs.Days.{end_of, event_end, lines_end, said_end};
ghost use Rattle.replay_command.specs.Days.Ending.{Over};
ghost use Rattle.replay_command.specs.Steps.{PrintsDeeds, PrintsLine, PrintsLines, PrintsSteps, dawn, told_after};
ghost use Rattle.replay_command.specs.Stream.{RunsLine, RunsTo};

use crate::begun::{Begun, begin};
use crate::course::Course;
use crate::crash_step::run_crash;
use crate::event_line::event_of_line;
use crate::event_step::run_event;
use crate::fault::CommandFault;
use crate::input::read_line;
use dialect::AnyDialect;
use ladder::Ladder;
use replay::Day;
use script::{DayEvent, Line, first_line};
use std::alloc::Global;
use std::io::{BufRead, Write};

/// What a line says happens, is drawn where there is a picture, and printed where each step is.
fn run_said<W: Write>(
    alloc: Global,
    steps: bool,
    line: &Line<'_>,
    event: DayEvent,
    course: &mut Course,
    picture: &mut Option<Ladder>,
    out: &mut W,
) -> Result<(), CommandFault>
    requires room { course.old.events < 2 ^ 64 - 1 }
    ensures runs { RunsLine steps result course.new.day (event_end line.now.number course.old.day event) }
    ensures count { OnOk result (course.new.events ≡ course.old.events + 1) }
    ensures told { steps ≡ true → OnOk result (course.new ≡ told_after course.old event) }
    ensures step { steps ≡ true → OnOk result (PrintsDeeds course.old event line.now.number line.now.text.now
        (W.contents out.old) (W.contents out.new)) }
    ensures kept { steps ≡ false → out.new ≡ out.old }
{
    match event {
        DayEvent::Goes(event) => run_event(alloc, steps, line, event, course, picture, out),
        DayEvent::Crash(loss) => run_crash(alloc, steps, line, &loss, course, picture, out),
    }
}

/// What a line says happens, if it says something, is drawn where there is a picture, and printed where each step is.
fn run_line<W: Write>(
    alloc: Global,
    steps: bool,
    venues: u8,
    line: &Line<'_>,
    course: &mut Course,
    picture: &mut Option<Ladder>,
    out: &mut W,
) -> Result<(), CommandFault>
    requires low { 1 ≤ venues }
    requires high { venues ≤ 16 }
    requires room { course.old.events < 2 ^ 64 - 1 }
    ensures runs { RunsLine steps result course.new.day
        (said_end line.now.number course.old.day (day_said_by venues line.now.text.now)) }
    ensures count { OnOk result (course.new.events ≤ course.old.events + 1) }
    ensures prints { steps ≡ true → OnOk result (PrintsLine course.old course.new line.now.number line.now.text.now
        (day_said_by venues line.now.text.now) (W.contents out.old) (W.contents out.new)) }
    ensures kept { steps ≡ false → out.new ≡ out.old }
{
    let Some(event) = event_of_line(alloc, venues, line.number, line.text)? else {
        return Ok(());
    };
    run_said(alloc, steps, line, event, course, picture, out)
}

/// Runs the lines that an input has left, of which the first has this number, and prints each event where each step is.
fn run_lines<R: BufRead, W: Write>(
    alloc: Global,
    steps: bool,
    venues: u8,
    first: u64,
    input: &mut R,
    buffer: &mut Vec<u8>,
    day: Day<AnyDialect>,
    picture: &mut Option<Ladder>,
    out: &mut W,
) -> Result<Day<AnyDialect>, CommandFault>
    requires low { 1 ≤ venues }
    requires high { venues ≤ 16 }
    ensures day { IfSome (R.remaining input.old) (λ bytes.
        RunsTo steps result (lines_end venues first (lines_of bytes) (Over day))) }
    ensures prints { steps ≡ true → OnOk result (IfSome (R.remaining input.old) (λ bytes.
        PrintsLines venues (dawn day) first (lines_of bytes) (W.contents out.old) (W.contents out.new))) }
    ensures kept { steps ≡ false → out.new ≡ out.old }
{
    let mut course = Course::new(alloc, day)?;
    for number in first..u64::MAX {
        if !read_line(input, buffer)? {
            return Ok(course.day);
        }
        let (text, _) = first_line(buffer);
        run_line(
            alloc,
            steps,
            venues,
            &Line { number, text },
            &mut course,
            picture,
            out,
        )?;
    }
    Err(CommandFault::ReadFailed)
}

/// The day that the script of an input leads to. It keeps no more of the text than a line, and prints each event
/// where each step is, as it happens. Where there is a picture each event is drawn in it.
///
/// `BadLine`: the first line that isn't of its form, or one above the last where the first is missing. `Impossible`: a
/// crash that loses what can't be lost. Either is told as soon as its line is read.
pub fn run_input<R: BufRead, W: Write>(
    alloc: Global,
    steps: bool,
    picture: &mut Option<Ladder>,
    input: &mut R,
    out: &mut W,
) -> Result<Day<AnyDialect>, CommandFault>
    ensures day { IfSome (R.remaining input.old) (λ bytes. RunsTo steps result (end_of bytes)) }
    ensures prints { steps ≡ true → OnOk result (IfSome (R.remaining input.old) (λ bytes.
        PrintsSteps bytes (W.contents out.old) (W.contents out.new))) }
    ensures kept { steps ≡ false → out.new ≡ out.old }
{
    let mut buffer = Vec::new(alloc);
    let Begun { head, number } = begin(input, &mut buffer)?;
    let dialects = head.dialects(alloc)?;
    let next = head.next(alloc)?;
    let day = Day::new(alloc, dialects, &next, head.max_number())?;
    run_lines(
        alloc,
        steps,
        head.venue_count(),
        number,
        input,
        &mut buffer,
        day,
        picture,
        out,
    )
}
