//! A leg's number in ClOrdID (11) as Plain spells it, `S12L3`.

ghost use Rattle.std.specs.Prelude.{◌≡◌};
ghost use Rattle.dialect.specs.Plain.{numbers_of, plain_id_of};
ghost use Rattle.leg.specs.LegId.{leg_id_text};

use crate::ordinal::read_ordinal;
use crate::spelling::IdText;
use crate::split::split_round;
use itoa::Buffer;
use leg::{LegId, MAX_PLACE, MAX_SWEEP};

/// Reads the two numbers round the first `L`.
#[inline(always)]
fn read_numbers(text: &[u8]) -> Option<LegId>
    ensures { result ≡ numbers_of text.now }
{
    let (sweep, place) = split_round(text, b'L')?;
    let sweep = read_ordinal(sweep, MAX_SWEEP)?;
    let place = read_ordinal(place, u64::from(MAX_PLACE))?;
    Some(LegId::new(sweep, place as u8))
}

/// Reads the one spelling of a leg's number, with no leading zeros.
#[tactic(auto, unfolding(crate::specs::Plain::plain_id_of))]
#[inline(always)]
pub(crate) fn read_plain_id(text: &[u8]) -> Option<LegId>
    ensures { result ≡ plain_id_of text.now }
{
    match text {
        [b'S', numbers @ ..] => read_numbers(numbers),
        _ => None,
    }
}

/// The one spelling of a leg's number.
#[inline(always)]
pub(crate) fn plain_id_text(id: &LegId) -> IdText
    ensures { result.items ≡ leg_id_text id.now }
{
    let mut digits = Buffer::new();
    let mut text = IdText::new();
    text.push(b'S');
    text.try_extend_from_slice(digits.format(id.sweep()).as_bytes())
        .unwrap();
    text.push(b'L');
    text.try_extend_from_slice(digits.format(id.place()).as_bytes())
        .unwrap();
    text
}
