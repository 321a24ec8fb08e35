//! What is printed of a log.

ghost use Rattle.std.specs.Prelude.{◌≡◌, false, IfErr, IfOk};
ghost use Rattle.day_check.specs.LogCheck.{ChecksLines};
ghost use Rattle.day_check.specs.LogText.{ChecksLog, path_line};

use crate::fault::LogFault;
use crate::finding::Printing;
use crate::input::{read_text, without_end};
use crate::log_check::LogCheck;
use command_line::print;
use day_rules::VenueDay;
use std::alloc::{AllocError, Global};
use std::io::{BufRead, Write};

/// A log that was checked.
#[derive(Drop)]
pub struct CheckedLog {
    /// What its messages say together.
    pub day: VenueDay,
    /// Whether one of them breaks a rule.
    pub is_broken: bool,
    /// Whether its first line is the head that this program writes.
    pub is_own: bool,
}

/// Checks the lines of a log, and prints the rules that they break.
fn check_lines<R: BufRead, W: Write>(
    alloc: Global,
    printing: &Printing<'_>,
    input: &mut R,
    out: &mut W,
) -> Result<LogCheck, LogFault>
    ensures { IfOk result
        (ChecksLines printing.now (R.remaining input.old) (W.contents out.old) (W.contents out.new)) }
{
    let mut log = LogCheck::new(alloc, printing.keeps_legs);
    let mut line = Vec::new(alloc);
    for number in 1..u64::MAX {
        if !read_text(input, &mut line)? {
            log.is_cut = !line.is_empty();
            return Ok(log);
        }
        let text = log.check_line(alloc, printing, number, without_end(&line))?;
        print(&text, out)?;
    }
    Err(LogFault::ReadFailed)
}

/// The line before what is printed of a log as text.
pub(crate) fn path_line(alloc: Global, printing: &Printing<'_>) -> Result<Vec<u8>, AllocError>
    ensures { IfOk result (λ text. printing.now.is_json ≡ false → text.items ≡ path_line printing.now.log.now) }
{
    if printing.is_json {
        return Ok(Vec::new(alloc));
    }
    let path = printing.log;
    Ok(format!(in alloc; "log {path}\n")?.into_bytes())
}

/// Prints the rules that the lines of a log break, a note where it ends within a line, a line for each rule, and then,
/// where it is asked for, what became of its orders.
pub fn print_log<R: BufRead, W: Write>(
    alloc: Global,
    printing: &Printing<'_>,
    input: &mut R,
    out: &mut W,
) -> Result<CheckedLog, LogFault>
    ensures { IfOk result
        (ChecksLog printing.now (R.remaining input.old) (W.contents out.old) (W.contents out.new)) }
{
    let head = path_line(alloc, printing)?;
    print(&head, out)?;
    let log = check_lines(alloc, printing, input, out)?;
    let end = log.end(alloc, printing)?;
    print(&end, out)?;
    Ok(CheckedLog {
        is_broken: log.is_broken(),
        is_own: log.is_own,
        day: log.day,
    })
}
