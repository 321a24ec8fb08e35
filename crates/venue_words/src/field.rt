//! A field as a text.

ghost use Rattle.std.specs.Prelude.{◌≡◌, ◌==◌, position};
ghost use Rattle.std.specs.Option.{option_map};
ghost use Rattle.dialect.specs.Split.{parts_round};
ghost use Rattle.venue_words.specs.Field.{field_of, pair_by, pair_of, tag_of};

use crate::data_tag::{is_data_tag, is_session_tag};
use crate::fault::FieldFault;
use desk_words::Printable;
use dialect::{Extra, MarkValue};
use fix_tags::read_number;

/// The most bytes of a field's value.
const MAX_VALUE: usize = 24;

/// The value of a field: 1 to 24 printable characters.
pub(crate) type FieldText = Printable<MAX_VALUE>;

/// The highest tag.
const MAX_TAG: u64 = 999_999;

fn first_equals(text: &[u8]) -> Option<usize>
    ensures { result ≡ position (λ c. c == 61) text.now }
{
    text.iter().position(|byte| *byte == b'=')
}

/// What stands before the first `=`, and what behind it.
fn parts_of(text: &[u8]) -> Option<(&[u8], &[u8])>
    ensures { option_map (λ parts. (parts.0.now, parts.1.now)) result ≡ parts_round 61 text.now }
{
    let at = first_equals(text)?;
    Some((&text[..at], &text[at + 1..]))
}

fn tag_of(text: &[u8]) -> Option<u32>
    ensures { result ≡ tag_of text.now }
{
    let tag = read_number(text)?;
    if 1 <= tag && tag <= MAX_TAG {
        u32::try_from(tag).ok()
    } else {
        None
    }
}

/// The field of a tag and a value, where both are there.
fn pair_by(tag: Option<u32>, value: Option<FieldText>) -> Option<Extra>
    ensures { result ≡ pair_by tag value }
{
    let (Some(tag), Some(value)) = (tag, value) else {
        return None;
    };
    let value = MarkValue::try_from(value.as_bytes()).unwrap();
    Some(Extra { tag, value })
}

/// The field that a text is, of any tag.
pub(crate) fn read_pair(text: &[u8]) -> Option<Extra>
    ensures { result ≡ pair_of text.now }
{
    let (tag, value) = parts_of(text)?;
    pair_by(tag_of(tag), FieldText::new(value))
}

/// The field of an order that a text is.
pub(crate) fn read_field(text: &[u8]) -> Result<Extra, FieldFault>
    ensures { result ≡ field_of text.now }
{
    let Some(field) = read_pair(text) else {
        return Err(FieldFault::NoField);
    };
    if is_session_tag(field.tag) {
        Err(FieldFault::OfSession)
    } else if is_data_tag(field.tag) {
        Err(FieldFault::OfData)
    } else {
        Ok(field)
    }
}
