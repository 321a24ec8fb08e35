//! The message of a line.

ghost use Rattle.std.specs.Prelude.{◌≡◌, ◌<◌, length, vec_capacity, Err};
ghost use Rattle.log_text.specs.Message.{ReadsMessage, message_said};
ghost use Rattle.log_text.specs.declared.fault.LineFault.TheVariants.{OutOfMemory};

use crate::fault::LineFault;
use crate::step::{Escape, Step, read_byte};

/// Reads the text of a message into the list, in place of what it held.
pub(crate) fn read_message(text: &[u8], message: &mut Vec<u8>) -> Result<(), LineFault>
    ensures said { ReadsMessage (message_said text.now) result message.new.items }
    ensures full { result ≡ Err OutOfMemory → vec_capacity message.old < length text.now }
{
    message.clear();
    let mut escape = Escape::Closed;
    for byte in text {
        match read_byte(escape, *byte)? {
            Step::Open(further) => escape = further,
            Step::Byte(byte) => {
                if message.push(byte).is_err() {
                    return Err(LineFault::OutOfMemory);
                }
                escape = Escape::Closed;
            }
        }
    }
    match escape {
        Escape::Closed => Ok(()),
        _ => Err(LineFault::Escape),
    }
}
