//! Numbers, as of sequences and lengths.

ghost use Rattle.std.specs.Prelude.{◌≡◌, ◌+◌, ◌<◌, ◌++◌, length, decimal, vec_len, vec_capacity, OnOk, OnErr, IsOkUnless};
ghost use Rattle.fix_tags.specs.Number.{number_of};

use crate::append::append;
use crate::digits::leading_number;
use crate::write_fault::WriteFault;
use itoa::Buffer;

const MAX_NUMBER: u64 = 999_999_999_999;

/// Reads digits of a value up to 999,999,999,999, with however many leading zeros (FIX 4.4 Volume 1, data type int).
#[inline]
#[tactic(auto, unfolding(crate::specs::Number::number_of))]
pub fn read_number(bytes: &[u8]) -> Option<u64>
    ensures { result ≡ number_of bytes.now }
{
    let (value, rest) = leading_number(bytes);
    if bytes.is_empty() || !rest.is_empty() || value > MAX_NUMBER {
        return None;
    }
    Some(value)
}

/// Writes the shortest decimal. `OutOfMemory`: `out` is full, and no memory is left.
#[inline]
pub fn write_number(number: u64, out: &mut Vec<u8>) -> Result<(), WriteFault>
    ensures ok { OnOk result (out.new.items ≡ out.old.items ++ decimal number) }
    ensures err { OnErr result (out.new.items ≡ out.old.items) }
    ensures only { IsOkUnless result WriteFault.OutOfMemory }
    ensures full { OnErr result (vec_capacity out.old < vec_len out.old + length (decimal number)) }
{
    let mut buffer = Buffer::new();
    append(out, buffer.format(number).as_bytes())
}
