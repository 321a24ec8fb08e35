//! The dispatcher is killed in a day, and starts again.
ghost use Rattle.std.specs.Prelude.{◌≡◌, ◌<◌, ◌≤◌, ◌+◌, ◌-◌, ◌^◌, false, true, IfErr, IfOk, OnOk};
ghost use Rattle.world_restart.specs.Start.{day_started, may_lose};
ghost use Rattle.script.specs.declared.day_event.DayEvent.TheVariants.{Crash};
ghost use Rattle.replay_command.specs.Days.{event_end};
ghost use Rattle.replay_command.specs.Steps.{PrintsDeeds, told_after};
ghost use Rattle.replay_command.specs.Stream.{IsOfRun, RunsLine};

use crate::course::Course;
use crate::crash_fault::why_impossible;
use crate::fault::CommandFault;
use crate::picture::{draw_crash, see_crash};
use crate::step::print_step;
use event_text::{BeforeCrash, Settled, print_crash};
use ladder::Ladder;
use script::{Line, Loss};
use std::alloc::Global;
use std::io::Write;

/// The dispatcher is killed, this is lost, and it starts again. `Impossible`: what can't be lost would be, and nothing
/// changed.
fn crash(
    alloc: Global,
    line: &Line<'_>,
    loss: &Loss,
    course: &mut Course,
) -> Result<(), CommandFault>
    ensures runs { RunsLine false result course.new.day (event_end line.now.number course.old.day (Crash loss.now)) }
    ensures same { OnOk result ((course.new.events ≡ course.old.events) × (course.new.settled ≡ course.old.settled)) }
{
    match course.day.crash(loss.sweeps(), loss.lines())? {
        Ok(()) => Ok(()),
        Err(fault) => Err(CommandFault::Impossible {
            line: line.number,
            why: why_impossible(alloc, &fault, loss, &course.day)?,
        }),
    }
}

/// The dispatcher is killed and starts again, which is drawn where there is a picture, and printed with what it did.
fn tell_crash<W: Write>(
    alloc: Global,
    line: &Line<'_>,
    loss: &Loss,
    course: &mut Course,
    picture: &mut Option<Ladder>,
    out: &mut W,
) -> Result<(), CommandFault>
    requires room { course.old.events < 2 ^ 64 - 1 }
    ensures runs { RunsLine true result course.new.day (event_end line.now.number course.old.day (Crash loss.now)) }
    ensures told { OnOk result (course.new ≡ told_after course.old (Crash loss.now)) }
    ensures step { OnOk result (PrintsDeeds course.old (Crash loss.now) line.now.number line.now.text.now
        (W.contents out.old) (W.contents out.new)) }
{
    let before = BeforeCrash::of(alloc, course.day.world())?;
    crash(alloc, line, loss, course)?;
    course.events += 1;
    let deeds = print_crash(
        alloc,
        &before,
        course.day.world(),
        &course.lines,
        loss.lines(),
    )?;
    course.settled = Settled::start_again(course.day.world());
    course.lines.start(course.events, loss.lines())?;
    draw_crash(alloc, picture, course.day.world(), loss, line)?;
    print_step(alloc, course.events, line, &deeds, out)
}

/// The dispatcher is killed and starts again, which is drawn where there is a picture.
fn pass_crash(
    alloc: Global,
    line: &Line<'_>,
    loss: &Loss,
    course: &mut Course,
    picture: &mut Option<Ladder>,
) -> Result<(), CommandFault>
    requires room { course.old.events < 2 ^ 64 - 1 }
    ensures runs { RunsLine false result course.new.day (event_end line.now.number course.old.day (Crash loss.now)) }
    ensures count { OnOk result (course.new.events ≡ course.old.events + 1) }
{
    crash(alloc, line, loss, course)?;
    course.events += 1;
    course.lines.start(course.events, loss.lines())?;
    draw_crash(alloc, picture, course.day.world(), loss, line)?;
    Ok(())
}

/// The dispatcher is killed and starts again, which is drawn where there is a picture, and printed where each step is.
/// `Impossible`: what can't be lost would be.
pub fn run_crash<W: Write>(
    alloc: Global,
    steps: bool,
    line: &Line<'_>,
    loss: &Loss,
    course: &mut Course,
    picture: &mut Option<Ladder>,
    out: &mut W,
) -> Result<(), CommandFault>
    requires room { course.old.events < 2 ^ 64 - 1 }
    ensures runs { RunsLine steps result course.new.day (event_end line.now.number course.old.day (Crash loss.now)) }
    ensures count { OnOk result (course.new.events ≡ course.old.events + 1) }
    ensures told { steps ≡ true → OnOk result (course.new ≡ told_after course.old (Crash loss.now)) }
    ensures step { steps ≡ true → OnOk result (PrintsDeeds course.old (Crash loss.now) line.now.number
        line.now.text.now (W.contents out.old) (W.contents out.new)) }
    ensures kept { steps ≡ false → out.new ≡ out.old }
{
    see_crash(alloc, picture, course.day.world())?;
    if steps {
        return tell_crash(alloc, line, loss, course, picture, out);
    }
    pass_crash(alloc, line, loss, course, picture)
}
