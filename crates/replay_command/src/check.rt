//! A script is read, and not run.
ghost use Rattle.std.specs.Prelude.{◌≤◌, IfSome};
ghost use Rattle.schedule.specs.Script.{lines_of};
ghost use Rattle.script.specs.DayScript.{bad_line, bad_line_of};
ghost use Rattle.replay_command.specs.Stream.{Checks};

use crate::begun::{Begun, begin};
use crate::event_line::event_of_line;
use crate::fault::CommandFault;
use crate::input::read_line;
use script::first_line;
use std::alloc::Global;
use std::io::BufRead;

/// Reads the lines that an input has left, of which the first has this number.
fn check_lines<R: BufRead>(
    alloc: Global,
    venues: u8,
    first: u64,
    input: &mut R,
    buffer: &mut Vec<u8>,
) -> Result<(), CommandFault>
    requires low { 1 ≤ venues }
    requires high { venues ≤ 16 }
    ensures { IfSome (R.remaining input.old) (λ bytes. Checks result (bad_line venues first (lines_of bytes))) }
{
    for number in first..u64::MAX {
        if !read_line(input, buffer)? {
            return Ok(());
        }
        let (line, _) = first_line(buffer);
        event_of_line(alloc, venues, number, line)?;
    }
    Err(CommandFault::ReadFailed)
}

/// Reads an input to see that it is a script, and runs nothing. `BadLine`: the first line that isn't of its form, or
/// one above the last where the first is missing.
pub fn check_input<R: BufRead>(alloc: Global, input: &mut R) -> Result<(), CommandFault>
    ensures { IfSome (R.remaining input.old) (λ bytes. Checks result (bad_line_of bytes)) }
{
    let mut buffer = Vec::new(alloc);
    let Begun { head, number } = begin(input, &mut buffer)?;
    check_lines(alloc, head.venue_count(), number, input, &mut buffer)
}
