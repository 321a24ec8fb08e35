//! Writing a text at the end of a message.

ghost use Rattle.std.specs.Prelude.{◌≡◌, ◌+◌, ◌<◌, ◌++◌, length, vec_len, vec_capacity, OnOk, OnErr, IsOkUnless};

use crate::write_fault::WriteFault;

/// Appends the text with one growth, or changes nothing.
#[inline]
pub(crate) fn append(out: &mut Vec<u8>, text: &[u8]) -> Result<(), WriteFault>
    ensures ok { OnOk result (out.new.items ≡ out.old.items ++ text.now) }
    ensures err { OnErr result (out.new.items ≡ out.old.items) }
    ensures only { IsOkUnless result WriteFault.OutOfMemory }
    ensures full { OnErr result (vec_capacity out.old < vec_len out.old + length text.now) }
{
    out.extend_from_slice(text)?;
    Ok(())
}
