//! The lines behind the first.
ghost use Rattle.std.specs.Prelude.{◌≤◌};
ghost use Rattle.script.specs.DayScript.{day_said_by};
ghost use Rattle.replay_command.specs.Stream.{GivesEvent};

use crate::fault::CommandFault;
use script::{DayEvent, LineFault, is_passed_over, read_day_event};
use std::alloc::Global;

/// The event of a line of this number, if it has one.
pub fn event_of_line(
    alloc: Global,
    venues: u8,
    number: u64,
    line: &[u8],
) -> Result<Option<DayEvent>, CommandFault>
    requires low { 1 ≤ venues }
    requires high { venues ≤ 16 }
    ensures { GivesEvent result number (day_said_by venues line.now) }
{
    if is_passed_over(line) {
        return Ok(None);
    }
    match read_day_event(alloc, venues, line) {
        Ok(event) => Ok(Some(event)),
        Err(LineFault::OutOfMemory) => Err(CommandFault::OutOfMemory),
        Err(LineFault::Bad) => Err(CommandFault::BadLine(number)),
    }
}
