//! Flags.

ghost use Rattle.std.specs.Prelude.{◌≡◌, ◌+◌, ◌<◌, ◌++◌, length, vec_len, vec_capacity, OnOk, OnErr, IsOkUnless};
ghost use Rattle.fix_tags.specs.Flag.{flag_of, flag_text};

use crate::append::append;
use crate::write_fault::WriteFault;

/// Reads `Y` as yes and `N` as no (FIX 4.4 Volume 1, data type Boolean).
#[inline]
#[tactic(auto, unfolding(crate::specs::Flag::flag_of))]
pub fn read_flag(bytes: &[u8]) -> Option<bool>
    ensures { result ≡ flag_of bytes.now }
{
    match bytes {
        [b'Y'] => Some(true),
        [b'N'] => Some(false),
        _ => None,
    }
}

/// Writes `Y` or `N`. `OutOfMemory`: `out` is full, and no memory is left.
#[inline]
pub fn write_flag(flag: bool, out: &mut Vec<u8>) -> Result<(), WriteFault>
    ensures ok { OnOk result (out.new.items ≡ out.old.items ++ flag_text flag) }
    ensures err { OnErr result (out.new.items ≡ out.old.items) }
    ensures only { IsOkUnless result WriteFault.OutOfMemory }
    ensures full { OnErr result (vec_capacity out.old < vec_len out.old + length (flag_text flag)) }
{
    append(out, if flag { b"Y" } else { b"N" })
}
