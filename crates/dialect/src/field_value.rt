//! The value of a field, with its fault.

ghost use Rattle.std.specs.Prelude.{◌≡◌, false, IfOk};
ghost use Rattle.std.specs.Result.{result_map_both};
ghost use Rattle.fix_text.specs.Text.{holds_soh};
ghost use Rattle.dialect.specs.Fields.{required, has_value, is_text};

use crate::fault::DialectFault;
use fix_tags::AppFields;

/// The value of a field that must be there.
pub fn required<'a>(fields: &AppFields<'a>, tag: u32) -> Result<&'a [u8], DialectFault>
    ensures value { result_map_both (λ value. value.now) (λ fault. fault) result ≡ required fields.now tag }
    ensures no_soh { IfOk result (λ value. holds_soh value.now ≡ false) }
{
    fields.get(tag).ok_or(DialectFault::Missing(tag))
}

/// Whether a field is there with exactly this value.
pub(crate) fn is_value(fields: &AppFields<'_>, tag: u32, text: &[u8]) -> bool
    ensures { result ≡ has_value (is_text text.now) fields.now tag }
{
    match fields.get(tag) {
        Some(value) => value == text,
        None => false,
    }
}
