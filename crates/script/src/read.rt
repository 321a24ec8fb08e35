//! A script is read.

ghost use Rattle.std.specs.Prelude.{◌≡◌, ◌≤◌};
ghost use Rattle.std.specs.Result.{result_map_both};
ghost use Rattle.schedule.specs.Script.{events_of_lines, script_of, script_of_lines};
ghost use Rattle.script.specs.Reading.{KeepsLine, ReadsHead, ReadsScript, said_by};

use crate::event::{is_passed_over, read_event};
use crate::head::Head;
use crate::kept::Kept;
use crate::line_fault::LineFault;
use crate::lines::Lines;
use crate::script::Script;
use schedule::{Event, ScriptFault};
use std::alloc::Global;

/// The first line, behind blank lines and remarks.
fn read_head(lines: &mut Lines<'_>) -> Result<Head, ScriptFault>
    ensures { ReadsHead (script_of_lines lines.old.number lines.old.lines) result lines.new }
{
    while let Some(line) = lines.next() {
        if !is_passed_over(line.text) {
            return Head::read(line.text).ok_or(ScriptFault::Line(line.number));
        }
    }
    Err(ScriptFault::Line(lines.number()))
}

/// Keeps the event of a line, if it has one.
fn keep_line(
    alloc: Global,
    venues: u8,
    number: u64,
    line: &[u8],
    events: &mut Kept<Event>,
) -> Result<(), ScriptFault>
    requires low { 1 ≤ venues }
    requires high { venues ≤ 16 }
    ensures { KeepsLine number (said_by venues line.now)
        result events.old.is_refused events.old.items.items events.new.is_refused events.new.items.items }
{
    if is_passed_over(line) {
        return Ok(());
    }
    match read_event(alloc, venues, line) {
        Ok(event) => events.keep(event),
        Err(LineFault::OutOfMemory) => events.refuse(),
        Err(LineFault::Bad) => return Err(ScriptFault::Line(number)),
    }
    Ok(())
}

/// The events of the lines behind the first.
fn read_events(alloc: Global, venues: u8, lines: &mut Lines<'_>) -> Result<Vec<Event>, ScriptFault>
    requires low { 1 ≤ venues }
    requires high { venues ≤ 16 }
    ensures { ReadsScript (events_of_lines venues lines.old.number lines.old.lines)
        (result_map_both (λ events. events.items) (λ fault. fault) result) }
{
    let mut events = Kept::new(alloc);
    while let Some(line) = lines.next() {
        keep_line(alloc, venues, line.number, line.text, &mut events)?;
    }
    match events.finish() {
        Ok(events) => Ok(events),
        Err(_) => Err(ScriptFault::OutOfMemory),
    }
}

/// The script of a text: its first line is `venues`, the number that no message has and the dialects of the venues, and
/// each further line an event. `Line`: the first line that isn't of its form, or one above the last where the first is
/// missing. `OutOfMemory`: the text is a script, and no memory is left.
pub fn read_script(alloc: Global, text: &[u8]) -> Result<Script, ScriptFault>
    ensures { ReadsScript (script_of text.now) result }
{
    let mut lines = Lines::new(text);
    let head = read_head(&mut lines)?;
    let events = read_events(alloc, head.venue_count(), &mut lines)?;
    match Script::new(alloc, &head, events) {
        Ok(script) => Ok(script),
        Err(_) => Err(ScriptFault::OutOfMemory),
    }
}
