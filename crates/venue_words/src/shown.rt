//! Which tables a text shows.

ghost use Rattle.std.specs.Prelude.{◌≡◌};
ghost use Rattle.std.specs.List.{list_all};
ghost use Rattle.venue_words.specs.Table.{is_shown, is_shown_field, is_shown_id, is_shown_price, is_shown_mark};

use crate::data_tag::{is_data_tag, is_session_tag};
use crate::field::FieldText;
use dialect::{Extra, IdShape, PriceShape, Words};

/// The tag of the instructions of an order, which spaces part.
pub(crate) const EXEC_INST: u32 = 18;

fn is_shown_id(shape: &IdShape) -> bool
    ensures { result ≡ is_shown_id shape.now }
{
    match shape {
        IdShape::Short => true,
        IdShape::Parted { base, .. } | IdShape::Joined { base, .. } => *base == 10 || *base == 16,
    }
}

fn is_shown_price(shape: PriceShape) -> bool
    ensures { result ≡ is_shown_price shape }
{
    match shape {
        PriceShape::Short | PriceShape::Four => true,
        PriceShape::Least { more } => more < 3,
    }
}

fn is_shown_field(tag: u32, value: &[u8]) -> bool
    ensures { result ≡ is_shown_field tag value.now }
{
    !is_session_tag(tag) && !is_data_tag(tag) && FieldText::new(value).is_some()
}

fn is_shown_mark(words: &Words) -> bool
    ensures { result ≡ is_shown_mark words.now }
{
    let is_alone = words.mark_tag != EXEC_INST;
    is_shown_field(words.mark_tag, words.mark_value.as_slice()) && words.mark_among != is_alone
}

fn are_shown_fields(extra: &[Extra]) -> bool
    ensures { result ≡ list_all (λ f. is_shown_field f.tag f.value.items) extra.now }
{
    extra
        .iter()
        .all(|field| is_shown_field(field.tag, field.value.as_slice()))
}

/// Whether a text shows all that a table says.
pub(crate) fn is_shown(words: &Words) -> bool
    ensures { result ≡ is_shown words.now }
{
    is_shown_id(&words.id)
        && is_shown_mark(words)
        && is_shown_price(words.price)
        && are_shown_fields(words.extra.as_slice())
}
