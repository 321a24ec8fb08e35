//! The log of the lines that a desk took.

ghost use Rattle.std.specs.Prelude.{◌≡◌, false, IfErr, IfOk, OnOk};
ghost use Rattle.std.specs.Io.KnownBytes.{Appends};
ghost use Rattle.day_check.specs.LogText.{path_line};
ghost use Rattle.day_check.specs.SweepsLog.{Hears, HearsLog, NamesBad, line_heard};

use crate::checked_log::path_line;
use crate::fault::LogFault;
use crate::finding::Printing;
use crate::input::{read_text, without_end};
use command_line::print;
use day_rules::DeskDay;
use log_rules::Moment;
use log_text::{is_passed_over, read_line};
use std::alloc::Global;
use std::io::{BufRead, Write};

/// Hears the next line, of this number, whose message is put into the buffer.
fn hear_line(
    desk: &mut DeskDay,
    number: u64,
    line: &[u8],
    buffer: &mut Vec<u8>,
) -> Result<(), LogFault>
    ensures heard { OnOk result (Hears number line.now desk.old desk.new) }
    ensures behind { OnOk result (desk.new ≡ line_heard number line.now desk.old) }
    ensures named { IfErr result (NamesBad number line.now) }
{
    if is_passed_over(line) {
        return Ok(());
    }
    match read_line(line, buffer) {
        Ok(said) => {
            let moment = Moment::of(&said.stamp);
            Ok(desk.hear(number, moment, said.direction, buffer)?)
        }
        Err(fault) => Err(LogFault::of_line(number, fault)),
    }
}

/// Hears the lines of a log.
fn hear_lines<R: BufRead>(alloc: Global, desk: DeskDay, input: &mut R) -> Result<DeskDay, LogFault>
    ensures { IfOk result (HearsLog (R.remaining input.old) desk) }
{
    let mut desk = desk;
    let mut line = Vec::new(alloc);
    let mut message = Vec::new(alloc);
    for number in 1..u64::MAX {
        if !read_text(input, &mut line)? {
            return Ok(desk);
        }
        hear_line(&mut desk, number, without_end(&line), &mut message)?;
    }
    Err(LogFault::ReadFailed)
}

/// Reads the log of a desk's lines, of which nothing is heard yet.
pub fn read_sweeps<R: BufRead, W: Write>(
    alloc: Global,
    printing: &Printing<'_>,
    desk: DeskDay,
    input: &mut R,
    out: &mut W,
) -> Result<DeskDay, LogFault>
    ensures heard { IfOk result (HearsLog (R.remaining input.old) desk) }
    ensures printed { OnOk result (printing.now.is_json ≡ false
        → Appends (W.contents out.old) (W.contents out.new) (path_line printing.now.log.now)) }
{
    let head = path_line(alloc, printing)?;
    print(&head, out)?;
    hear_lines(alloc, desk, input)
}
