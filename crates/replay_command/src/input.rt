//! The lines of an input.
ghost use Rattle.std.specs.Prelude.{◌≡◌, ◌<◌, true, length, IfOk, IfErr, IfSome};
ghost use Rattle.replay_command.specs.Stream.{IsOfInput, ReadsLine};

use crate::fault::CommandFault;
use std::io::{BufRead, ErrorKind};

/// Reads the next line of an input, with its end, in the place of what the buffer has; or tells that there is none.
pub fn read_line<R: BufRead>(input: &mut R, buffer: &mut Vec<u8>) -> Result<bool, CommandFault>
    ensures line { IfOk result (λ is_there.
        IfSome (R.remaining input.old) (ReadsLine is_there buffer.new.items (R.remaining input.new))) }
    ensures some { IfOk result (λ is_there. is_there ≡ true → 0 < length buffer.new.items) }
    ensures only { IfErr result IsOfInput }
{
    buffer.clear();
    match input.read_until(b'\n', buffer) {
        Ok(count) => Ok(count > 0),
        Err(error) if error.kind() == ErrorKind::OutOfMemory => Err(CommandFault::OutOfMemory),
        Err(_) => Err(CommandFault::ReadFailed),
    }
}
