//! Reading the value of one field.
ghost use Rattle.std.specs.Prelude.{◌∷◌, [], false, None, ◌≡◌};
ghost use Rattle.std.specs.Option.{option_map};
ghost use Rattle.fix_text.specs.FrameFields.{fields_in};
ghost use Rattle.fix_tags.specs.CompId.{comp_id_of};
ghost use Rattle.fix_tags.specs.Flag.{flag_of};
ghost use Rattle.fix_tags.specs.Message.{is_between};
ghost use Rattle.fix_tags.specs.Reading.{Gives, good, wanted, required, optional, or_default, flag_at, short_text, some_text, number_if, some_number, no_encryption};

use crate::comp_id::is_comp_id;
use crate::flag::read_flag;
use crate::limits::{MAX_TEST_ID, NumberRange};
use crate::number::read_number;
use crate::tag::{ENCRYPT_METHOD, TEST_REQ_ID};
use crate::tag_fault::TagFault;
use fix_text::Frame;

/// A value of 1 to `most` bytes.
#[inline]
fn text_in<'a>(tag: u32, value: &'a [u8], most: usize) -> Result<&'a [u8], TagFault>
    ensures { Gives (λ text. text.now) result (good tag (short_text most value.entry.now)) }
{
    if value.is_empty() || value.len() > most {
        return Err(TagFault::BadField(tag));
    }
    Ok(value)
}

/// A text of 1 to `most` bytes that must be there.
#[inline]
pub(crate) fn text_of<'a>(
    tag: u32,
    value: Option<&'a [u8]>,
    most: usize,
) -> Result<&'a [u8], TagFault>
    ensures { Gives (λ text. text.now) result
        (wanted tag (short_text most) (option_map (λ value. value.now) value.entry)) }
{
    match value {
        None => Err(TagFault::Missing(tag)),
        Some(value) => text_in(tag, value, most),
    }
}

/// The same of a frame's field.
pub(crate) fn text_at<'a>(frame: &Frame<'a>, tag: u32, most: usize) -> Result<&'a [u8], TagFault>
    ensures { Gives (λ text. text.now) result (required (fields_in frame.now) tag (short_text most)) }
{
    text_of(tag, frame.get(tag), most)
}

/// The id of a test request, if there is one.
pub(crate) fn test_id_if_any<'a>(frame: &Frame<'a>) -> Result<Option<&'a [u8]>, TagFault>
    ensures { Gives (option_map (λ id. id.now)) result (optional (fields_in frame.now) TEST_REQ_ID some_text None) }
{
    match frame.get(TEST_REQ_ID) {
        None => Ok(None),
        Some(value) => Ok(Some(text_in(TEST_REQ_ID, value, MAX_TEST_ID)?)),
    }
}

/// The name of a firm, which must be there.
#[inline]
pub(crate) fn firm_of<'a>(tag: u32, value: Option<&'a [u8]>) -> Result<&'a [u8], TagFault>
    ensures { Gives (λ value. value.now) result (wanted tag comp_id_of (option_map (λ value. value.now) value.entry)) }
{
    match value {
        None => Err(TagFault::Missing(tag)),
        Some(value) if is_comp_id(value) => Ok(value),
        Some(_) => Err(TagFault::BadField(tag)),
    }
}

/// The flag of a value, which is N where there is none.
pub(crate) fn flag_in(tag: u32, value: Option<&[u8]>) -> Result<bool, TagFault>
    ensures { result ≡ or_default tag flag_of false (option_map (λ value. value.now) value.entry) }
{
    match value {
        None => Ok(false),
        Some(value) => read_flag(value).ok_or(TagFault::BadField(tag)),
    }
}

/// A flag, which is N where its field is missing.
pub(crate) fn flag_at(frame: &Frame<'_>, tag: u32) -> Result<bool, TagFault>
    ensures { result ≡ flag_at (fields_in frame.now) tag }
{
    flag_in(tag, frame.get(tag))
}

/// The number of a value, in its range.
#[inline(always)]
fn number_in(tag: u32, value: &[u8], range: NumberRange) -> Result<u64, TagFault>
    ensures { result ≡ good tag (number_if (is_between range.least range.greatest) value.now) }
{
    match read_number(value) {
        Some(number) if range.contains(number) => Ok(number),
        _ => Err(TagFault::BadField(tag)),
    }
}

/// A number that must be there.
#[inline(always)]
pub(crate) fn number_of(tag: u32, value: Option<&[u8]>, range: NumberRange) -> Result<u64, TagFault>
    ensures { result ≡ wanted tag (number_if (is_between range.least range.greatest))
        (option_map (λ value. value.now) value.entry) }
{
    match value {
        None => Err(TagFault::Missing(tag)),
        Some(value) => number_in(tag, value, range),
    }
}

/// The same of a frame's field.
pub(crate) fn number_at(frame: &Frame<'_>, tag: u32, range: NumberRange) -> Result<u64, TagFault>
    ensures { result ≡ required (fields_in frame.now) tag (number_if (is_between range.least range.greatest)) }
{
    number_of(tag, frame.get(tag), range)
}

/// The same of a number that may be missing.
pub(crate) fn number_if_any(
    frame: &Frame<'_>,
    tag: u32,
    range: NumberRange,
) -> Result<Option<u64>, TagFault>
    ensures { result ≡ optional (fields_in frame.now) tag (some_number (is_between range.least range.greatest)) None }
{
    match frame.get(tag) {
        None => Ok(None),
        Some(value) => Ok(Some(number_in(tag, value, range)?)),
    }
}

/// EncryptMethod (98) is 0: none.
pub(crate) fn no_encryption(frame: &Frame<'_>) -> Result<(), TagFault>
    ensures { Gives (λ _. 48 ∷ []) result (required (fields_in frame.now) ENCRYPT_METHOD no_encryption) }
{
    match frame.get(ENCRYPT_METHOD) {
        None => Err(TagFault::Missing(ENCRYPT_METHOD)),
        Some([b'0']) => Ok(()),
        Some(_) => Err(TagFault::BadField(ENCRYPT_METHOD)),
    }
}
