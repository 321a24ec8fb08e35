//! What is printed of a script.
ghost use Rattle.std.specs.Prelude.{◌≡◌, [], false, IfOk, IfSome};
ghost use Rattle.script.specs.DayScript.{bad_line_of};
ghost use Rattle.replay_command.specs.Days.{end_of};
ghost use Rattle.replay_command.specs.Stream.{Checks, EndsCheck, EndsRun, RunsTo, ShowsLast, last_lines};

use crate::check::check_input;
use crate::day::run_input;
use crate::fault::CommandFault;
use crate::frames::frame_lines;
use crate::shown::Shown;
use command_line::print;
use dialect::AnyDialect;
use ladder::Ladder;
use replay::World;
use std::alloc::{AllocError, Global};
use std::io::{BufReader, Read, Write};
use world_text::{print_summary, print_world};

/// Prints that an input is a script, or nothing.
pub fn print_check<R: Read, W: Write>(
    alloc: Global,
    input: &mut R,
    out: &mut W,
) -> Result<(), CommandFault>
    ensures { IfSome (R.remaining input.old) (λ bytes.
        EndsCheck (W.contents out.old) (W.contents out.new) (bad_line_of bytes) result) }
{
    let Ok(mut input) = BufReader::new(alloc, input) else {
        return Err(CommandFault::OutOfMemory);
    };
    check_input(alloc, &mut input)?;
    Ok(print(b"script ok\n", out)?)
}

/// Prints what is shown of the day of an input's script, and draws it where there is a picture. Where nothing is
/// printed of its steps, a fault leaves the output as it was, but one of the output itself.
pub fn print_day<R: Read, W: Write>(
    alloc: Global,
    shown: Shown,
    picture: &mut Option<Ladder>,
    input: &mut R,
    out: &mut W,
) -> Result<(), CommandFault>
    ensures { IfSome (R.remaining input.old) (λ bytes.
        EndsRun shown bytes (W.contents out.old) (W.contents out.new) (end_of bytes) result) }
{
    let Ok(mut input) = BufReader::new(alloc, input) else {
        return Err(CommandFault::OutOfMemory);
    };
    let day = run_input(alloc, shown.steps, picture, &mut input, out)?;
    let text = end_of_day(alloc, shown, day.world())?;
    Ok(print(&text, out)?)
}

/// What is printed at the end of a day: the frames, where they are shown, and the lines of the world, or its sums.
fn end_of_day(alloc: Global, shown: Shown, world: &World<AnyDialect>) -> Result<Vec<u8>, AllocError>
    ensures { IfOk result (λ text. ShowsLast shown.frames text.items (last_lines shown.summary world.now)) }
{
    let mut text = frames_shown(alloc, shown.frames, world)?;
    text.extend_from_slice(&last_lines(alloc, shown.summary, world)?)?;
    Ok(text)
}

/// The frames that were written, where they are shown.
fn frames_shown(
    alloc: Global,
    frames: bool,
    world: &World<AnyDialect>,
) -> Result<Vec<u8>, AllocError>
    ensures { IfOk result (λ text. frames ≡ false → text.items ≡ []) }
{
    if frames {
        return frame_lines(alloc, world);
    }
    Ok(Vec::new(alloc))
}

/// The lines of a world, or its sums.
fn last_lines(
    alloc: Global,
    summary: bool,
    world: &World<AnyDialect>,
) -> Result<Vec<u8>, AllocError>
    ensures { IfOk result (λ text. text.items ≡ last_lines summary world.now) }
{
    if summary {
        print_summary(alloc, world)
    } else {
        print_world(alloc, world)
    }
}
