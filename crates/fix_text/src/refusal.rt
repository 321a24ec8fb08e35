//! Which fields can be written as a frame, and how long their text is.
ghost use Rattle.std.specs.Prelude.{true, not, nat_lt, Ok, Err, ◌≡◌, ◌+◌, ◌≤◌, min, length, decimal, if◌then◌else◌};
ghost use Rattle.std.specs.List.{list_all, flat_map};
ghost use Rattle.fix_text.specs.Text.{field_text, fields_text, holds_soh, begins_with_type, is_writable_tag, is_writable_value, has_writable_tags, has_writable_values};
ghost use Rattle.fix_text.specs.FrameParts.{all_fields};
ghost use Rattle.fix_text.specs.declared.fault.TextFault.TheVariants.{BadTag, BadValue, TooLong};

use crate::fault::TextFault;
use crate::field::Lend;
use crate::frame_parts::FrameParts;
use memchr::memchr;

/// The greatest BodyLength (9), in bytes.
pub const MAX_BODY: usize = 4096;

/// What stands for every length above the greatest.
const TOO_LONG: usize = MAX_BODY + 1;

const SOH: u8 = 1;

/// Whether a tag can be written: it is 1 to 999,999, and none of the frame's own 8, 9 and 10.
pub fn can_write_tag(tag: u32) -> bool
    ensures { result ≡ is_writable_tag tag }
{
    0 < tag && tag <= 999_999 && tag != 8 && tag != 9 && tag != 10
}

fn has_soh(value: &[u8]) -> bool
    ensures { result ≡ holds_soh value.now }
{
    memchr(SOH, value).is_some()
}

/// Whether a value can be written: it isn't empty and holds no SOH.
pub fn can_write_value(value: &[u8]) -> bool
    ensures { result ≡ is_writable_value value.now }
{
    !value.is_empty() && !has_soh(value)
}

fn can_write_each_tag<F: Lend>(fields: &[F]) -> bool
    ensures { result ≡ list_all (λ field. is_writable_tag (F.tagged field).tag) fields.now }
{
    fields.iter().all(|field| can_write_tag(field.lend().tag()))
}

fn is_typed(parts: &FrameParts<'_>) -> bool
    ensures { result ≡ begins_with_type (all_fields parts.now) }
{
    match parts.head {
        [field, ..] => field.tag() == 35,
        [] => match parts.body {
            [field, ..] => field.tag() == 35,
            [] => match parts.rest {
                [field, ..] => field.tag() == 35,
                [] => false,
            },
        },
    }
}

fn can_write_tags(parts: &FrameParts<'_>) -> bool
    ensures { result ≡ has_writable_tags (all_fields parts.now) }
{
    is_typed(parts)
        && can_write_each_tag(parts.head)
        && can_write_each_tag(parts.body)
        && can_write_each_tag(parts.rest)
}

/// The number of decimal digits of a tag or a length.
pub(crate) fn digit_count(number: u32) -> usize
    requires { number ≤ 999999 }
    ensures value { result ≡ length (decimal number) }
    ensures small { result ≤ 6 }
{
    match number {
        0..=9 => 1,
        10..=99 => 2,
        100..=999 => 3,
        1_000..=9_999 => 4,
        10_000..=99_999 => 5,
        _ => 6,
    }
}

fn can_write_each_value<F: Lend>(fields: &[F]) -> bool
    ensures { result ≡ list_all (λ field. is_writable_value (F.tagged field).value) fields.now }
{
    fields
        .iter()
        .all(|field| can_write_value(field.lend().value()))
}

fn can_write_values(parts: &FrameParts<'_>) -> bool
    ensures { result ≡ has_writable_values (all_fields parts.now) }
{
    can_write_each_value(parts.head)
        && can_write_each_value(parts.body)
        && can_write_each_value(parts.rest)
}

/// The length of text that is there and of the written fields, or `TOO_LONG` where it is above the
/// greatest body.
fn length_with<F: Lend>(before: usize, fields: &[F]) -> usize
    requires tags { list_all (λ field. is_writable_tag (F.tagged field).tag) fields.now ≡ true }
    requires fits { before ≤ 4097 }
    ensures { result ≡ min 4097 (before + length (flat_map (λ field. field_text (F.tagged field)) fields.now)) }
{
    let mut total = before;
    for item in fields {
        let field = item.lend();
        total = TOO_LONG.min(total + digit_count(field.tag()) + 1 + field.value().len() + 1);
    }
    total
}

/// The length of the text of fields that can be written one by one, or that it is above the greatest
/// body.
pub fn text_length(parts: &FrameParts<'_>) -> Result<usize, TextFault>
    requires tags { has_writable_tags (all_fields parts.now) ≡ true }
    ensures { let fields = all_fields parts.now in
        result ≡ (if nat_lt 4096 (length (fields_text fields)) then Err TooLong else Ok (length (fields_text fields))) }
{
    let head = length_with(0, parts.head);
    let front = length_with(head, parts.body);
    let length = length_with(front, parts.rest);
    if length > MAX_BODY {
        return Err(TextFault::TooLong);
    }
    Ok(length)
}

/// Looks for a field that can't be written: each fault is tried over all fields before the next.
pub fn check_fields(parts: &FrameParts<'_>) -> Result<(), TextFault>
    ensures { let fields = all_fields parts.now in
        result ≡ (if not (has_writable_tags fields) then Err BadTag
        else (if not (has_writable_values fields) then Err BadValue else Ok tt)) }
{
    if !can_write_tags(parts) {
        return Err(TextFault::BadTag);
    }
    if !can_write_values(parts) {
        return Err(TextFault::BadValue);
    }
    Ok(())
}
