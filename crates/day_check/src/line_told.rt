//! What a line says of an order, as a desk is told.
ghost use Rattle.std.specs.Prelude.{◌≡◌, [], false, None, Some, IfErr, IfOk};
ghost use Rattle.fix_text.specs.FrameFields.{fields_in};
ghost use Rattle.log_legs.specs.Execution.{execution_of};
ghost use Rattle.day_check.specs.ExecutionText.{execution_line};
ghost use Rattle.day_check.specs.declared.fault.LogFault.TheVariants.{OutOfMemory};
ghost use Rattle.day_check.specs.declared.form.Form.TheVariants.{Own, Quickfix};
ghost use Rattle.day_check.specs.Judge.{NamesBadLine, direction_told, message_in, message_of};
ghost use Rattle.day_check.specs.LineTold.{TellsOf, execution_by, execution_told, line_execution};

use crate::execution_json::execution_json;
use crate::execution_text::execution_line;
use crate::fault::LogFault;
use crate::finding::Printing;
use crate::form::Form;
use crate::judge::{Way, direction_of};
use desk_executions::Untaken;
use fix_tags::{CompId, EnvelopeRef, read_envelope};
use fix_text::{Frame, FrameReader};
use log_legs::{Execution, Watch, execution_of};
use log_text::{read_line, read_quickfix};
use message_log::Direction;
use std::alloc::{AllocError, Global};

/// What is printed of a line's execution, and, where it tells one, the answer of the desk's book: why it doesn't take
/// it, if it doesn't.
#[derive(Drop)]
pub(crate) struct LineTold {
    pub text: Vec<u8>,
    pub answer: Option<Option<Untaken>>,
}

impl LineTold {
    /// Of a line that tells no execution.
    fn nothing(alloc: Global) -> LineTold
        ensures text { result.text.items ≡ [] }
        ensures answer { result.answer ≡ None }
    {
        LineTold {
            text: Vec::new(alloc),
            answer: None,
        }
    }
}

/// The line of an execution, as text or as JSON.
fn printed_line(
    alloc: Global,
    printing: &Printing<'_>,
    number: u64,
    execution: &Execution<'_>,
) -> Result<Vec<u8>, AllocError>
    ensures { IfOk result (λ text. printing.now.is_json ≡ false → text.items ≡ execution_line execution.now) }
{
    if printing.is_json {
        return execution_json(alloc, printing.log, number, execution);
    }
    execution_line(alloc, execution)
}

/// What is told of an execution.
fn printed(
    alloc: Global,
    printing: &Printing<'_>,
    number: u64,
    execution: &Execution<'_>,
) -> Result<LineTold, AllocError>
    ensures { IfOk result (TellsOf printing.now.is_json (Some execution.now)) }
{
    Ok(LineTold {
        text: printed_line(alloc, printing, number, execution)?,
        answer: Some(execution.untaken),
    })
}

/// What is told of a message that was received.
fn tell_received(
    alloc: Global,
    printing: &Printing<'_>,
    number: u64,
    watch: &Watch,
    message: &EnvelopeRef<'_>,
) -> Result<LineTold, AllocError>
    ensures { IfOk result (TellsOf printing.now.is_json (execution_of watch.now message.now)) }
{
    match execution_of(watch, message) {
        Some(execution) => printed(alloc, printing, number, &execution),
        None => Ok(LineTold::nothing(alloc)),
    }
}

/// What is told of a message.
fn tell_message(
    alloc: Global,
    printing: &Printing<'_>,
    number: u64,
    watch: &Watch,
    way: &Way<'_>,
    message: &EnvelopeRef<'_>,
) -> Result<LineTold, AllocError>
    ensures { IfOk result (TellsOf printing.now.is_json
        (execution_by watch.now (direction_told way.now message.now) message.now)) }
{
    match direction_of(way, message) {
        Some(Direction::Received) => tell_received(alloc, printing, number, watch, message),
        Some(Direction::Sent) => Ok(LineTold::nothing(alloc)),
        None => Ok(LineTold::nothing(alloc)),
    }
}

fn tell_frame(
    alloc: Global,
    printing: &Printing<'_>,
    number: u64,
    watch: &Watch,
    way: &Way<'_>,
    frame: &Frame<'_>,
) -> Result<LineTold, AllocError>
    ensures { IfOk result (TellsOf printing.now.is_json
        (execution_told watch.now (direction_told way.now) (message_of (Some (fields_in frame.now))))) }
{
    match read_envelope(frame) {
        Ok(message) => tell_message(alloc, printing, number, watch, way, &message),
        Err(_) => Ok(LineTold::nothing(alloc)),
    }
}

/// What is told of the message of the first frame in these bytes.
fn tell_bytes(
    alloc: Global,
    printing: &Printing<'_>,
    number: u64,
    watch: &Watch,
    way: &Way<'_>,
    bytes: &[u8],
) -> Result<LineTold, LogFault>
    ensures told { IfOk result (TellsOf printing.now.is_json
        (execution_told watch.now (direction_told way.now) (message_in bytes.now))) }
    ensures memory { IfErr result (λ fault. fault ≡ OutOfMemory) }
{
    let mut reader = FrameReader::new(alloc);
    if reader.feed(bytes).is_err() {
        return Err(LogFault::OutOfMemory);
    }
    match reader.next() {
        Ok(Some(frame)) => Ok(tell_frame(alloc, printing, number, watch, way, &frame)?),
        Ok(None) => Ok(LineTold::nothing(alloc)),
        Err(_) => Err(LogFault::OutOfMemory),
    }
}

/// What is told of a line of this program's log, whose message is put into the buffer.
fn tell_own(
    alloc: Global,
    printing: &Printing<'_>,
    number: u64,
    watch: &Watch,
    line: &[u8],
    buffer: &mut Vec<u8>,
) -> Result<LineTold, LogFault>
    ensures told { IfOk result (TellsOf printing.now.is_json (line_execution Own line.now watch.now)) }
    ensures named { IfErr result (NamesBadLine Own number line.now) }
{
    match read_line(line, buffer) {
        Ok(said) => tell_bytes(
            alloc,
            printing,
            number,
            watch,
            &Way::Said(said.direction),
            buffer.as_slice(),
        ),
        Err(fault) => Err(LogFault::of_line(number, fault)),
    }
}

/// What is told of a line of QuickFIX, for the desk of this name.
fn tell_quickfix(
    alloc: Global,
    printing: &Printing<'_>,
    number: u64,
    watch: &Watch,
    desk: &CompId,
    line: &[u8],
) -> Result<LineTold, LogFault>
    ensures told { IfOk result (TellsOf printing.now.is_json
        (line_execution (Quickfix desk.now) line.now watch.now)) }
    ensures named { IfErr result (NamesBadLine (Quickfix desk.now) number line.now) }
{
    match read_quickfix(line) {
        Ok(said) => tell_bytes(
            alloc,
            printing,
            number,
            watch,
            &Way::Names(desk),
            said.message,
        ),
        Err(fault) => Err(LogFault::of_line(number, fault)),
    }
}

/// What the line of this number says of an order, by what is known behind the lines before it. Its message is put into
/// the buffer where the line has it escaped.
pub(crate) fn tell_line(
    alloc: Global,
    printing: &Printing<'_>,
    number: u64,
    watch: &Watch,
    line: &[u8],
    buffer: &mut Vec<u8>,
) -> Result<LineTold, LogFault>
    ensures told { IfOk result (TellsOf printing.now.is_json
        (line_execution printing.now.form.now line.now watch.now)) }
    ensures named { IfErr result (NamesBadLine printing.now.form.now number line.now) }
{
    match printing.form {
        Form::Own => tell_own(alloc, printing, number, watch, line, buffer),
        Form::Quickfix { desk } => tell_quickfix(alloc, printing, number, watch, desk, line),
    }
}
