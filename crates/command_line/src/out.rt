//! Bytes are printed.
ghost use Rattle.std.specs.Prelude.{OnOk};
ghost use Rattle.std.specs.Io.KnownBytes.{Appends};
ghost use Rattle.command_line.specs.Output.{Grows};

use std::io::Write;

/// The output can't be written.
#[derive(Clone, Copy, Debug, PartialEq, Eq)]
pub struct WriteFailed;

/// Prints bytes.
pub fn print<W: Write>(bytes: &[u8], out: &mut W) -> Result<(), WriteFailed>
    ensures ok { OnOk result (Appends (W.contents out.old) (W.contents out.new) bytes.now) }
    ensures grows { OnOk result (Grows (W.contents out.old) (W.contents out.new)) }
{
    match out.write_all(bytes) {
        Ok(()) => Ok(()),
        Err(_) => Err(WriteFailed),
    }
}
