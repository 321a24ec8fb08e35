//! The lines of a log.

ghost use Rattle.std.specs.Prelude.{◌≡◌, IfOk, IfSome};
ghost use Rattle.std.specs.Io.BufRead.{strip_last};
ghost use Rattle.day_check.specs.Lines.{ReadsNext, lacks_end};

use crate::fault::LogFault;
use std::alloc::Global;
use std::io::{BufRead, ErrorKind};

/// Whether a line has no end, as what was being written when a log ended.
fn lacks_end(line: &[u8]) -> bool
    ensures { result ≡ lacks_end line.now }
{
    without_end(line).len() == line.len()
}

/// Reads the next line of a log, with its end, in the place of what the buffer has; or tells that there is none. What
/// has no end is no line, and stands in the buffer then.
pub(crate) fn read_text<R: BufRead>(input: &mut R, buffer: &mut Vec<u8>) -> Result<bool, LogFault>
    ensures { IfOk result (λ is_there.
        IfSome (R.remaining input.old) (ReadsNext is_there buffer.new.items (R.remaining input.new))) }
{
    buffer.clear();
    match input.read_until(b'\n', buffer) {
        Ok(_) if lacks_end(buffer) => Ok(false),
        Ok(_) => Ok(true),
        Err(error) if error.kind() == ErrorKind::OutOfMemory => Err(LogFault::OutOfMemory),
        Err(_) => Err(LogFault::ReadFailed),
    }
}

/// A line without its end.
pub(crate) fn without_end(line: &[u8]) -> &[u8]
    ensures { result.now ≡ strip_last 10 line.now }
{
    match line {
        [text @ .., b'\n'] => text,
        text => text,
    }
}

/// The line of this number, from 1, without its end; an empty one where there are fewer.
pub fn read_line_at<R: BufRead>(
    alloc: Global,
    input: &mut R,
    number: u64,
) -> Result<Vec<u8>, LogFault> {
    let mut line = Vec::new(alloc);
    for _ in 0..number {
        if !read_text(input, &mut line)? {
            return Ok(line);
        }
    }
    let length = without_end(&line).len();
    line.truncate(length);
    Ok(line)
}
