//! Instructions of an order, in ExecInst (18).

ghost use Rattle.std.specs.Prelude.{◌≡◌};
ghost use Rattle.dialect.specs.Mark.{is_among};
ghost use Rattle.dialect.specs.Fields.{has_value};

use crate::tag::EXEC_INST;
use fix_tags::AppFields;

/// ExecInst (18) of a leg of a sweep: an intermarket sweep.
pub(crate) const INTERMARKET_SWEEP: &[u8] = b"f";

/// Whether a value stands among those of a text, which single spaces part (FIX 4.4 Volume 1, data type
/// MultipleValueString).
pub(crate) fn is_among(value: &[u8], text: &[u8]) -> bool
    ensures { result ≡ is_among value.now text.now }
{
    text.split(|c| *c == b' ').any(|part| part == value)
}

/// Whether a field is there with this value among its values.
pub(crate) fn has_among(fields: &AppFields<'_>, tag: u32, value: &[u8]) -> bool
    ensures { result ≡ has_value (is_among value.now) fields.now tag }
{
    match fields.get(tag) {
        Some(text) => is_among(value, text),
        None => false,
    }
}

/// Whether ExecInst (18) is there with this value among its values.
pub(crate) fn has_instruction(fields: &AppFields<'_>, value: &[u8]) -> bool
    ensures { result ≡ has_value (is_among value.now) fields.now 18 }
{
    match fields.get(EXEC_INST) {
        Some(text) => is_among(value, text),
        None => false,
    }
}
