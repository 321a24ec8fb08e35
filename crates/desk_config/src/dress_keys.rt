//! What a venue's messages carry besides: `header` and `logon`.

ghost use Rattle.std.specs.Prelude.{◌≡◌};
ghost use Rattle.desk_config.specs.Dress.{dress_in, field_items, fields_from, next_field, part_at, part_key, with_text};
ghost use Rattle.desk_config.specs.Venues.{result_map};
ghost use Rattle.toml.specs.View.{array_view, view};

use crate::fault::Fault;
use crate::found::Found;
use crate::key::Key;
use toml::Value;
use toml::value::Array;
use venue_words::{Dress, FieldFault, VenueWords};

/// Which of a venue's messages carry a field.
#[derive(Clone, Copy, Debug, PartialEq, Eq)]
pub(crate) enum Part {
    /// Each, in its header.
    Header,
    /// The Logon alone.
    Logon,
}

fn part_key(part: Part) -> Key
    ensures { result ≡ part_key part }
{
    match part {
        Part::Header => Key::Header,
        Part::Logon => Key::Logon,
    }
}

fn with_text(part: Part, words: &VenueWords, dress: Dress, text: &[u8]) -> Result<Dress, FieldFault>
    ensures { result ≡ with_text part words.now dress text.now }
{
    match part {
        Part::Header => dress.with_header(words, text),
        Part::Logon => dress.with_logon(text),
    }
}

/// With one more field, the one of this number.
#[tactic(auto, unfolding(crate::specs::Dress::next_field))]
fn next_field(
    part: Part,
    words: &VenueWords,
    dress: Dress,
    number: usize,
    value: &Value,
) -> Result<Dress, Fault>
    ensures { result ≡ next_field part words.now dress number (view value.now) }
{
    let added = match value.as_str() {
        Some(text) => with_text(part, words, dress, text.as_bytes()),
        None => Err(FieldFault::NoField),
    };
    match added {
        Ok(dress) => Ok(dress),
        Err(fault) => Err(Fault::Field {
            key: part_key(part),
            number,
            found: Found::of(value),
            fault,
        }),
    }
}

/// With the fields that these values are.
#[tactic(auto, using(crate::proofs::DressRead::dress_steps), unfolding(crate::specs::Dress::fields_from))]
fn each_field(
    part: Part,
    words: &VenueWords,
    earlier: Dress,
    fields: &Array,
) -> Result<Dress, Fault>
    ensures { result ≡ fields_from part words.now earlier 1 (array_view fields.now) }
{
    let mut dress = earlier;
    let mut number = 0;
    for value in fields {
        number += 1;
        dress = next_field(part, words, dress, number, value)?;
    }
    Ok(dress)
}

/// The values of an array that has one.
#[tactic(auto, using(crate::proofs::Views::items_count_view), unfolding(crate::specs::Dress::field_items))]
fn field_items(key: Key, value: &Value) -> Result<&Array, Fault>
    ensures { field_items key (view value.now) ≡ (result_map (λ items. array_view items.now) result) }
{
    match value.as_array() {
        Some(items) if !items.is_empty() => Ok(items),
        _ => Err(Fault::Bad {
            key,
            found: Found::of(value),
        }),
    }
}

/// With the fields of this part, if the table has any.
#[tactic(auto, unfolding(crate::specs::Dress::part_at))]
fn part_at(part: Part, words: &VenueWords, dress: Dress, table: &Value) -> Result<Dress, Fault>
    ensures { result ≡ part_at part words.now dress (view table.now) }
{
    let key = part_key(part);
    let Some(value) = table.get(key.name()) else {
        return Ok(dress);
    };
    let fields = field_items(key, value)?;
    each_field(part, words, dress, fields)
}

/// What the messages for a venue that spells its orders so carry besides.
#[tactic(auto, unfolding(crate::specs::Dress::dress_in))]
pub(crate) fn dress_in(words: &VenueWords, table: &Value) -> Result<Dress, Fault>
    ensures { result ≡ dress_in words.now (view table.now) }
{
    let dress = part_at(Part::Header, words, Dress::none(), table)?;
    part_at(Part::Logon, words, dress, table)
}
