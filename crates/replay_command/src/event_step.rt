//! An event of the world happens in a day.
ghost use Rattle.std.specs.Prelude.{◌≡◌, ◌<◌, ◌+◌, ◌-◌, ◌^◌, false, true, IfErr, OnOk};
ghost use Rattle.world_restart.specs.Day.{after_event};
ghost use Rattle.script.specs.declared.day_event.DayEvent.TheVariants.{Goes};
ghost use Rattle.replay_command.specs.Steps.{PrintsDeeds, told_after};
ghost use Rattle.replay_command.specs.Stream.{IsOfRun};

use crate::course::Course;
use crate::fault::CommandFault;
use crate::picture::{draw, see};
use crate::step::print_step;
use event_text::{Before, print_deeds};
use ladder::Ladder;
use schedule::Event;
use script::Line;
use std::alloc::Global;
use std::io::Write;

/// An event happens, is drawn where there is a picture, and printed with what it did.
fn tell_event<W: Write>(
    alloc: Global,
    line: &Line<'_>,
    event: Event,
    course: &mut Course,
    picture: &mut Option<Ladder>,
    out: &mut W,
) -> Result<(), CommandFault>
    requires room { course.old.events < 2 ^ 64 - 1 }
    ensures told { OnOk result (course.new ≡ told_after course.old (Goes event)) }
    ensures step { OnOk result (PrintsDeeds course.old (Goes event) line.now.number line.now.text.now
        (W.contents out.old) (W.contents out.new)) }
    ensures only { IfErr result (IsOfRun true) }
{
    course.events += 1;
    course.lines.write(course.events, &event)?;
    let before = Before::of(alloc, course.day.world(), &event)?;
    let told = course.day.happen(event)?;
    let deeds = print_deeds(
        alloc,
        &before,
        course.day.world(),
        &told,
        &mut course.settled,
    )?;
    draw(alloc, picture, course.day.world(), line)?;
    print_step(alloc, course.events, line, &deeds, out)
}

/// An event happens, is drawn where there is a picture, and printed where each step is.
pub fn run_event<W: Write>(
    alloc: Global,
    steps: bool,
    line: &Line<'_>,
    event: Event,
    course: &mut Course,
    picture: &mut Option<Ladder>,
    out: &mut W,
) -> Result<(), CommandFault>
    requires room { course.old.events < 2 ^ 64 - 1 }
    ensures day { OnOk result (course.new.day ≡ after_event course.old.day event) }
    ensures count { OnOk result (course.new.events ≡ course.old.events + 1) }
    ensures told { steps ≡ true → OnOk result (course.new ≡ told_after course.old (Goes event)) }
    ensures step { steps ≡ true → OnOk result (PrintsDeeds course.old (Goes event) line.now.number line.now.text.now
        (W.contents out.old) (W.contents out.new)) }
    ensures only { IfErr result (IsOfRun steps) }
    ensures kept { steps ≡ false → out.new ≡ out.old }
{
    see(picture, course.day.world(), &event);
    if steps {
        return tell_event(alloc, line, event, course, picture, out);
    }
    course.events += 1;
    course.lines.write(course.events, &event)?;
    course.day.happen(event)?;
    draw(alloc, picture, course.day.world(), line)?;
    Ok(())
}
