//! A line of a script behind the first.

ghost use Rattle.std.specs.Prelude.{◌≡◌, ◌≤◌};
ghost use Rattle.schedule.specs.Script.{event_of_words, is_passed_over, words_of};
ghost use Rattle.script.specs.Reading.{ReadsLine};

use crate::call::read_call;
use crate::line_fault::LineFault;
use crate::release::read_release;
use crate::word::words_of;
use schedule::Event;
use std::alloc::Global;
use std::str;

/// Whether a line is blank or a remark.
pub fn is_passed_over(line: &[u8]) -> bool
    ensures { result ≡ is_passed_over line.now }
{
    match line {
        [] => true,
        [first, ..] => *first == b'#',
    }
}

/// The event of a line behind the first, for so many venues. `Bad`: it is none. `OutOfMemory`: it is one, and no memory
/// is left.
#[tactic(auto, using(crate::proofs::Names::no_event))]
pub fn read_event(alloc: Global, venues: u8, line: &[u8]) -> Result<Event, LineFault>
    requires low { 1 ≤ venues }
    requires high { venues ≤ 16 }
    ensures { ReadsLine (event_of_words venues (words_of line.now)) result }
{
    let mut words = words_of(line);
    let Some(name) = words.next() else {
        return Err(LineFault::Bad);
    };
    match str::from_utf8(name) {
        Ok("release") => read_release(alloc, &mut words),
        Ok(name) => read_call(venues, name, &mut words).ok_or(LineFault::Bad),
        Err(_) => Err(LineFault::Bad),
    }
}
