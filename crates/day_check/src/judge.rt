//! What a line says of the rules.
ghost use Rattle.std.specs.Prelude.{◌≡◌, Ok, Some};
ghost use Rattle.fix_text.specs.FrameFields.{fields_in};
ghost use Rattle.day_check.specs.declared.form.Form.TheVariants.{Own, Quickfix};
ghost use Rattle.day_check.specs.Judge.{Judges, direction_told, entry_by, entry_told, line_entry, message_in};
ghost use Rattle.day_check.specs.Judge.{message_of, way_of};
ghost use Rattle.day_check.specs.Judge.Told.{Unread};

use crate::form::Form;
use day_rules::VenueDay;
use fix_tags::{CompId, EnvelopeRef, Stamp, read_envelope};
use fix_text::{Frame, FrameReader};
use log_rules::{Checker, Entry, Verdict};
use log_text::{LineFault, LogLine, direction_between, read_line, read_quickfix};
use message_log::Direction;
use std::alloc::Global;

/// How it is told which way a message went.
#[derive(Debug, Drop)]
pub(crate) enum Way<'a> {
    /// By its line.
    Said(Direction),
    /// By the names of its ends, of which one is this desk.
    Names(&'a CompId),
}

/// Which way a message went.
pub(crate) fn direction_of(way: &Way<'_>, message: &EnvelopeRef<'_>) -> Option<Direction>
    ensures { result ≡ direction_told way.now message.now }
{
    match way {
        Way::Said(direction) => Some(*direction),
        Way::Names(desk) => direction_between(message.sender(), message.target(), desk),
    }
}

/// What a message says of each rule.
fn judge_message(
    stamp: Stamp,
    way: &Way<'_>,
    message: &EnvelopeRef<'_>,
    number: u64,
    day: &mut VenueDay,
) -> Result<[Verdict; 22], LineFault>
    ensures { Judges number (entry_by stamp message.now (direction_told way.now message.now)) day.old day.new result }
{
    let Some(direction) = direction_of(way, message) else {
        return Err(LineFault::Parties);
    };
    let line = LogLine { stamp, direction };
    match day.hear(number, &Entry::new(&line, message)) {
        Ok(verdicts) => Ok(verdicts),
        Err(_) => Err(LineFault::OutOfMemory),
    }
}

/// What a message that can't be read, of these bytes, says of each rule.
fn judge_unread(
    way: &Way<'_>,
    bytes: &[u8],
    number: u64,
    day: &mut VenueDay,
) -> Result<[Verdict; 22], LineFault>
    ensures { Judges number (Ok (Unread (way_of way.now) bytes.now)) day.old day.new result }
{
    let Way::Said(direction) = way else {
        return Ok(Checker::unread());
    };
    match day.hear_unread(*direction, bytes) {
        Ok(verdicts) => Ok(verdicts),
        Err(_) => Err(LineFault::OutOfMemory),
    }
}

/// What the message of the frame in these bytes says of each rule.
fn judge_frame(
    stamp: Stamp,
    way: &Way<'_>,
    frame: &Frame<'_>,
    bytes: &[u8],
    number: u64,
    day: &mut VenueDay,
) -> Result<[Verdict; 22], LineFault>
    ensures { Judges number (entry_told stamp (direction_told way.now) (way_of way.now) bytes.now
        (message_of (Some (fields_in frame.now)))) day.old day.new result }
{
    match read_envelope(frame) {
        Ok(message) => judge_message(stamp, way, &message, number, day),
        Err(_) => judge_unread(way, bytes, number, day),
    }
}

/// What a message says of each rule, in the order of `RULES`. It is the first frame in these bytes.
fn judge(
    alloc: Global,
    stamp: Stamp,
    way: &Way<'_>,
    bytes: &[u8],
    number: u64,
    day: &mut VenueDay,
) -> Result<[Verdict; 22], LineFault>
    ensures { Judges number (entry_told stamp (direction_told way.now) (way_of way.now) bytes.now
        (message_in bytes.now)) day.old day.new result }
{
    let mut reader = FrameReader::new(alloc);
    if reader.feed(bytes).is_err() {
        return Err(LineFault::OutOfMemory);
    }
    match reader.next() {
        Ok(Some(frame)) => judge_frame(stamp, way, &frame, bytes, number, day),
        Ok(None) => judge_unread(way, bytes, number, day),
        Err(_) => Err(LineFault::OutOfMemory),
    }
}

/// What the message of a line of this program's log says of each rule. It is put into the buffer.
fn judge_own(
    alloc: Global,
    line: &[u8],
    buffer: &mut Vec<u8>,
    number: u64,
    day: &mut VenueDay,
) -> Result<[Verdict; 22], LineFault>
    ensures { Judges number (line_entry Own line.now) day.old day.new result }
{
    let said = match read_line(line, buffer) {
        Ok(said) => said,
        Err(fault) => return Err(fault),
    };
    judge(
        alloc,
        said.stamp,
        &Way::Said(said.direction),
        buffer.as_slice(),
        number,
        day,
    )
}

/// What the message of a line of QuickFIX says of each rule, for the desk of this name.
fn judge_quickfix(
    alloc: Global,
    desk: &CompId,
    line: &[u8],
    number: u64,
    day: &mut VenueDay,
) -> Result<[Verdict; 22], LineFault>
    ensures { Judges number (line_entry (Quickfix desk.now) line.now) day.old day.new result }
{
    let said = match read_quickfix(line) {
        Ok(said) => said,
        Err(fault) => return Err(fault),
    };
    judge(
        alloc,
        said.stamp,
        &Way::Names(desk),
        said.message,
        number,
        day,
    )
}

/// What the message of a line says of each rule, in the order of `RULES`. It is put into the buffer where the line has
/// it escaped.
pub(crate) fn judge_line(
    alloc: Global,
    form: &Form,
    line: &[u8],
    buffer: &mut Vec<u8>,
    number: u64,
    day: &mut VenueDay,
) -> Result<[Verdict; 22], LineFault>
    ensures { Judges number (line_entry form.now line.now) day.old day.new result }
{
    match form {
        Form::Own => judge_own(alloc, line, buffer, number, day),
        Form::Quickfix { desk } => judge_quickfix(alloc, desk, line, number, day),
    }
}
