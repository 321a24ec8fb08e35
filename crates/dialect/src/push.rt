//! Pushing one field.

ghost use Rattle.std.specs.Prelude.{◌≡◌, ◌+◌, ◌<◌, ◌≤◌, ◌∷◌, [], Ok, Err, OnOk, OnErr, take, length, decimal};
ghost use Rattle.fix_text.specs.Sink.{Pushes};
ghost use Rattle.dialect.specs.Fields.{field};

use crate::fault::SpellFault;
use fix_text::{Field, FieldSink};
use itoa::Buffer;
use std::alloc::{AllocError, Global};

/// Pushes a field with a copy of this value of at most 24 bytes, which wants no memory of its own.
pub(crate) fn push_short<F: FieldSink>(
    alloc: Global,
    tag: u32,
    value: &[u8],
    fields: &mut F,
) -> Result<(), AllocError>
    requires { length value.now ≤ 24 }
    ensures pushed { Pushes F.Takes (field tag value.now ∷ []) fields.old fields.new result }
    ensures left { F.room fields.old ≤ F.room fields.new + 1 }
    ensures full { OnErr result (F.room fields.old < 1) }
{
    fields.push_field(alloc, tag, value)
}

/// Pushes a field of a number, in the shortest decimal. It is inlined: so the tag is known where its text is
/// looked up.
#[inline(always)]
pub(crate) fn push_number<F: FieldSink>(
    alloc: Global,
    tag: u32,
    number: u64,
    fields: &mut F,
) -> Result<(), AllocError>
    ensures pushed { Pushes F.Takes (field tag (decimal number) ∷ []) fields.old fields.new result }
    ensures left { F.room fields.old ≤ F.room fields.new + 1 }
    ensures full { OnErr result (F.room fields.old < 1) }
{
    let mut digits = Buffer::new();
    push_short(alloc, tag, digits.format(number).as_bytes(), fields)
}

/// Keeps what was appended behind the first `start` fields, or takes it away where memory ran out.
pub(crate) fn all_or_nothing(
    written: Result<(), AllocError>,
    start: usize,
    fields: &mut Vec<Field>,
) -> Result<(), SpellFault>
    ensures ok { OnOk written ((result ≡ Ok tt) × (fields.new.items ≡ fields.old.items)) }
    ensures err { OnErr written
        ((result ≡ Err SpellFault.OutOfMemory) × (fields.new.items ≡ take start fields.old.items)) }
{
    if written.is_err() {
        fields.truncate(start);
        return Err(SpellFault::OutOfMemory);
    }
    Ok(())
}
