//! The fields of a text, by their places in it.
ghost use Rattle.std.specs.Prelude.{◌≡◌, ◌-◌, ◌≤◌, false, None, IfOk, IfSome, IsOkUnless, IsTrue, OnErr, length, slice_range, vec_capacity, if◌then◌else◌};
ghost use Rattle.std.specs.Option.{option_map};
ghost use Rattle.fix_text.specs.Reading.{field_of, fields_of, typed_fields, valid_fields};
ghost use Rattle.fix_text.specs.Placing.{AreMore, ArePlaced, field_at, is_within};
ghost use Rattle.fix_text.specs.Text.{holds_soh};

use crate::checksum::sum256;
use crate::field::FieldRef;
use crate::parse::RawFrame;
use crate::place::Place;
use crate::reader_fault::ReaderFault;
use memchr::memchr_iter;

const SOH: u8 = 1;

/// The number of a digit, reckoned in 32 bits, where tens and ones are put together in fewer steps.
fn digit(byte: u8) -> u32
    requires { 48 ≤ byte }
    ensures { result ≡ byte - 48 }
{
    u32::from(byte) - u32::from(b'0')
}

/// The field of a part `tag=value`.
#[tactic(auto, unfolding(crate::specs::Reading::field_from))]
fn field_of(part: &[u8]) -> Option<FieldRef<'_>>
    ensures { result ≡ field_of part.now }
{
    match part {
        // Most tags have two digits.
        [tens @ b'1'..=b'9', ones @ b'0'..=b'9', b'=', value @ ..] => {
            Some(FieldRef::new(10 * digit(*tens) + digit(*ones), value))
        }
        _ => field_by_digits(part),
    }
}

/// The same, digit by digit.
#[tactic(auto, unfolding(crate::specs::Reading::field_from))]
fn field_by_digits(part: &[u8]) -> Option<FieldRef<'_>>
    ensures { result ≡ field_of part.now }
{
    let mut rest = part;
    let mut tag = 0u32;
    loop {
        match rest {
            [b'=', value @ ..] => return if 0 < tag {
                Some(FieldRef::new(tag, value))
            } else {
                None
            },
            [byte @ b'0'..=b'9', after @ ..] => {
                tag = 10 * tag + digit(*byte);
                if tag == 0 || tag > 999_999 {
                    return None;
                }
                rest = after;
            }
            _ => return None,
        }
    }
}

/// Whether a body begins with MsgType (35), if it is nothing but fields.
fn is_typed(body: &[u8]) -> bool
    ensures { typed_fields body.now ≡ (if result then fields_of body.now else None) }
{
    body.starts_with(b"35=")
}

/// The place of the field that takes up this part of a text, which has no SOH in it.
fn place_of(text: &[u8], at: usize, end: usize) -> Option<Place>
    requires ordered { at ≤ end }
    requires within { end ≤ length text.now }
    requires part { holds_soh (slice_range text.now at end) ≡ false }
    ensures field { option_map (field_at text.now) result ≡ field_of (slice_range text.now at end) }
    ensures within { IfSome result (λ place. IsTrue (is_within text.now place)) }
{
    let field = field_of(&text[at..end])?;
    Some(Place {
        tag: field.tag(),
        start: end - field.value().len(),
        end,
    })
}

/// Puts the places of a text's fields into the list, in place of what it held, or answers that the text isn't fields
/// alone. The text is gone through once; where there is no room for a place the rest of the text still decides.
#[inline(never)]
pub fn place_fields(text: &[u8], places: &mut Vec<Place>) -> Result<bool, ReaderFault>
    ensures placed { IfOk result (λ is. ArePlaced is text.now places.new.items (fields_of text.now)) }
    ensures refusal { IsOkUnless result ReaderFault.OutOfMemory }
    // Memory is wanted only for more fields than there was room for.
    ensures full { OnErr result (AreMore (vec_capacity places.old) (fields_of text.now)) }
    ensures room { vec_capacity places.old ≤ vec_capacity places.new }
{
    places.clear();
    let mut at = 0usize;
    let mut is_full = false;
    for end in memchr_iter(SOH, text) {
        let Some(place) = place_of(text, at, end) else {
            return Ok(false);
        };
        if places.push(place).is_err() {
            is_full = true;
        }
        at = end + 1;
    }
    if at < text.len() {
        return Ok(false);
    }
    if is_full {
        return Err(ReaderFault::OutOfMemory);
    }
    Ok(true)
}

/// The same of the body of a whole frame, if the frame is valid. Its bytes are summed up once.
#[tactic(auto, unfolding(crate::specs::Reading::valid_fields))]
pub fn place_valid_fields(frame: &RawFrame, places: &mut Vec<Place>) -> Result<bool, ReaderFault>
    ensures placed { IfOk result (λ is. ArePlaced is frame.now.body places.new.items (valid_fields frame.now)) }
    ensures refusal { IsOkUnless result ReaderFault.OutOfMemory }
    ensures full { OnErr result (AreMore (vec_capacity places.old) (valid_fields frame.now)) }
    ensures room { vec_capacity places.old ≤ vec_capacity places.new }
{
    if u32::from(sum256(frame.before())) != frame.check() || !is_typed(frame.body()) {
        return Ok(false);
    }
    place_fields(frame.body(), places)
}
