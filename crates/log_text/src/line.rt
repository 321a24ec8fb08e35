//! What a line says.

ghost use Rattle.std.specs.Prelude.{◌≡◌, ◌<◌, length, vec_capacity, Err, Result};
ghost use Rattle.log_text.specs.Line.{ReadsLine, direction_said, line_said};
ghost use Rattle.log_text.specs.declared.fault.LineFault.TheVariants.{OutOfMemory};

use crate::fault::LineFault;
use crate::message::read_message;
use fix_tags::{Stamp, read_stamp};
use message_log::Direction;

/// The length of `YYYYMMDD-HH:MM:SS.sss`.
pub(crate) const STAMP_LEN: usize = 21;

/// The length of a stamp with the mark behind it.
pub(crate) const HEAD_LEN: usize = 24;

/// When a message was logged, and which way it went.
#[derive(Clone, Copy, Debug)]
pub struct LogLine {
    pub stamp: Stamp,
    pub direction: Direction,
}

/// The direction of a mark with its spaces.
fn direction_of(mark: &[u8]) -> Option<Direction>
    ensures { result ≡ direction_said mark.now }
{
    match mark {
        b" > " => Some(Direction::Sent),
        b" < " => Some(Direction::Received),
        _ => None,
    }
}

/// Reads a line of the log, without its end, and puts its message into the list, in place of what it held. Faults are
/// tried from the line's front. `OutOfMemory` comes only where the list has less room than the line is long.
pub fn read_line(line: &[u8], message: &mut Vec<u8>) -> Result<LogLine, LineFault>
    ensures said { ReadsLine (line_said line.now) result message.new.items }
    ensures full { result ≡ Err OutOfMemory → vec_capacity message.old < length line.now }
{
    if line.len() < HEAD_LEN {
        return Err(LineFault::Short);
    }
    let stamp = read_stamp(&line[..STAMP_LEN]).ok_or(LineFault::Time)?;
    let direction = direction_of(&line[STAMP_LEN..HEAD_LEN]).ok_or(LineFault::Direction)?;
    read_message(&line[HEAD_LEN..], message)?;
    Ok(LogLine { stamp, direction })
}
