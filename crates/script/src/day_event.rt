//! A line of a script behind the first, which may be a crash.

ghost use Rattle.std.specs.Prelude.{◌≡◌, ◌≤◌};
ghost use Rattle.schedule.specs.Script.{event_of_words, words_of};
ghost use Rattle.script.specs.Crash.{day_event_of_words, goes};
ghost use Rattle.script.specs.Reading.{ReadsLine};

use crate::crash::read_crash;
use crate::event::read_event;
use crate::line_fault::LineFault;
use crate::loss::Loss;
use crate::word::{is_named, words_of};
use schedule::Event;
use std::alloc::Global;

/// What a line behind the first says.
#[derive(Debug, Drop)]
pub enum DayEvent {
    /// An event of the world.
    Goes(Event),
    /// The dispatcher is killed, this is lost, and it starts again.
    Crash(Loss),
}

/// The event of the world that a line says.
fn read_other(alloc: Global, venues: u8, line: &[u8]) -> Result<DayEvent, LineFault>
    requires low { 1 ≤ venues }
    requires high { venues ≤ 16 }
    ensures { ReadsLine (goes (event_of_words venues (words_of line.now))) result }
{
    Ok(DayEvent::Goes(read_event(alloc, venues, line)?))
}

/// What a line behind the first says, for so many venues. `Bad`: it is of no form. `OutOfMemory`: it is of one, and no
/// memory is left.
pub fn read_day_event(alloc: Global, venues: u8, line: &[u8]) -> Result<DayEvent, LineFault>
    requires low { 1 ≤ venues }
    requires high { venues ≤ 16 }
    ensures { ReadsLine (day_event_of_words venues (words_of line.now)) result }
{
    let mut words = words_of(line);
    let Some(name) = words.next() else {
        return Err(LineFault::Bad);
    };
    if !is_named(name, "crash") {
        return read_other(alloc, venues, line);
    }
    match read_crash(venues, &mut words) {
        Some(loss) => Ok(DayEvent::Crash(loss)),
        None => Err(LineFault::Bad),
    }
}
