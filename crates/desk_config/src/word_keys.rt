//! How a venue spells its orders: `dialect`, and what departs from it.

ghost use Rattle.std.specs.Prelude.{◌≡◌, option_and_then, option_map};
ghost use Rattle.desk_config.specs.Words.{fields_from, forms_by, id_at, known_in, mark_at, mark_by, next_field};
ghost use Rattle.desk_config.specs.Words.{order_by, price_at, priced, symbol_at, table_by, taken_or_bad, words_in};
ghost use Rattle.toml.specs.Data.{as_str};
ghost use Rattle.toml.specs.View.{array_view, view};
ghost use Rattle.venue_words.specs.Builds.{with_id, with_symbol};

use crate::fault::Fault;
use crate::found::Found;
use crate::key::Key;
use crate::keys::Keys;
use crate::value_at::value_at;
use desk_words::shown;
use dialect::AnyDialect;
use toml::Value;
use toml::value::Array;
use venue_words::{FieldFault, VenueWords, WordTable};

/// A table, or that the key's value isn't one that it takes.
fn taken_or_bad(key: Key, value: &Value, table: Option<WordTable>) -> Result<WordTable, Fault>
    ensures { result ≡ taken_or_bad key (view value.now) table }
{
    match table {
        Some(table) => Ok(table),
        None => Err(Fault::Bad {
            key,
            found: Found::of(value),
        }),
    }
}

fn id_by(table: &WordTable, value: &Value) -> Option<WordTable>
    ensures { result ≡ option_and_then (with_id table.now) (as_str (view value.now)) }
{
    table.with_id(value.as_str()?.as_bytes())
}

/// The table with the shape of a leg's number that `id` shows.
#[tactic(auto, unfolding(crate::specs::Words::id_at))]
fn id_at(table: WordTable, words: &Value) -> Result<WordTable, Fault>
    ensures { result ≡ id_at table (view words.now) }
{
    match words.get("id") {
        Some(value) => taken_or_bad(Key::Id, value, id_by(&table, value)),
        None => Ok(table),
    }
}

fn mark_by(table: &WordTable, value: &Value) -> Result<WordTable, Fault>
    ensures { result ≡ mark_by table.now (view value.now) }
{
    let Some(text) = value.as_str() else {
        return Err(Fault::Bad {
            key: Key::Mark,
            found: Found::of(value),
        });
    };
    match table.with_mark(text.as_bytes()) {
        Ok(table) => Ok(table),
        Err(fault) => Err(Fault::Mark {
            found: Found::of(value),
            fault,
        }),
    }
}

/// The table with the mark that `mark` is.
#[tactic(auto, unfolding(crate::specs::Words::mark_at))]
fn mark_at(table: WordTable, words: &Value) -> Result<WordTable, Fault>
    ensures { result ≡ mark_at table (view words.now) }
{
    match words.get("mark") {
        Some(value) => mark_by(&table, value),
        None => Ok(table),
    }
}

#[tactic(auto, using(crate::proofs::Views::views))]
fn priced(table: &WordTable, value: &Value) -> Option<WordTable>
    ensures { result ≡ priced table.now (view value.now) }
{
    match value {
        Value::String(text) => table.with_price(text.as_str()),
        Value::Integer(number) => table.with_decimals(u64::try_from(*number).ok()?),
        _ => None,
    }
}

/// The table with prices as `price` has them.
#[tactic(auto, unfolding(crate::specs::Words::price_at))]
fn price_at(table: WordTable, words: &Value) -> Result<WordTable, Fault>
    ensures { result ≡ price_at table (view words.now) }
{
    match words.get("price") {
        Some(value) => taken_or_bad(Key::Price, value, priced(&table, value)),
        None => Ok(table),
    }
}

fn symbol_by(table: &WordTable, value: &Value) -> Option<WordTable>
    ensures { result ≡ option_and_then (with_symbol table.now) (as_str (view value.now)) }
{
    table.with_symbol(value.as_str()?)
}

/// The table with symbols as `symbol` has them.
#[tactic(auto, unfolding(crate::specs::Words::symbol_at))]
fn symbol_at(table: WordTable, words: &Value) -> Result<WordTable, Fault>
    ensures { result ≡ symbol_at table (view words.now) }
{
    match words.get("symbol") {
        Some(value) => taken_or_bad(Key::Symbol, value, symbol_by(&table, value)),
        None => Ok(table),
    }
}

/// That `words` is a table, with no key that it may not have.
fn check_words(words: &Value) -> Result<(), Fault>
    ensures { result ≡ known_in (view words.now) }
{
    let Some(table) = words.as_table() else {
        return Err(Fault::Bad {
            key: Key::Words,
            found: Found::of(words),
        });
    };
    match Keys::Words.first_unknown(table) {
        Some(key) => Err(Fault::UnknownWord(shown(key.as_bytes()))),
        None => Ok(()),
    }
}

/// The table with all that `words` says.
#[tactic(auto, unfolding(crate::specs::Words::forms_by))]
fn forms_by(table: WordTable, words: &Value) -> Result<WordTable, Fault>
    ensures { result ≡ forms_by table (view words.now) }
{
    check_words(words)?;
    let table = id_at(table, words)?;
    let table = mark_at(table, words)?;
    let table = price_at(table, words)?;
    symbol_at(table, words)
}

/// The table with one more field, the one of this number.
#[tactic(auto, unfolding(crate::specs::Words::next_field))]
fn next_field(table: &WordTable, number: usize, value: &Value) -> Result<WordTable, Fault>
    ensures { result ≡ next_field table.now number (view value.now) }
{
    let added = match value.as_str() {
        Some(text) => table.with_field(text.as_bytes()),
        None => Err(FieldFault::NoField),
    };
    match added {
        Ok(table) => Ok(table),
        Err(fault) => Err(Fault::Order {
            number,
            found: Found::of(value),
            fault,
        }),
    }
}

/// The table with the fields that these values are.
#[tactic(auto, using(crate::proofs::FieldsRead::field_steps), unfolding(crate::specs::Words::fields_from))]
fn each_field(preset: WordTable, fields: &Array) -> Result<WordTable, Fault>
    ensures { result ≡ fields_from preset 1 (array_view fields.now) }
{
    let mut table = preset;
    let mut number = 0;
    for value in fields {
        number += 1;
        table = next_field(&table, number, value)?;
    }
    Ok(table)
}

/// The table with the fields of `order`.
fn order_by(table: WordTable, order: &Value) -> Result<WordTable, Fault>
    ensures { result ≡ order_by table (view order.now) }
{
    match order.as_array() {
        Some(fields) => each_field(table, fields),
        None => Err(Fault::Bad {
            key: Key::Order,
            found: Found::of(order),
        }),
    }
}

/// The table that `words` and `order` make of a dialect.
#[tactic(auto, unfolding(crate::specs::Words::table_by))]
fn table_by(
    dialect: AnyDialect,
    words: Option<&Value>,
    order: Option<&Value>,
) -> Result<WordTable, Fault>
    ensures { result ≡ table_by dialect (option_map (λ v. view v.now) words.entry)
        (option_map (λ v. view v.now) order.entry) }
{
    let preset = WordTable::preset(dialect);
    let table = match words {
        Some(words) => forms_by(preset, words)?,
        None => preset,
    };
    match order {
        Some(order) => order_by(table, order),
        None => Ok(table),
    }
}

/// How a venue spells its orders: as a dialect, or by the table that `words` and `order` make of it.
#[tactic(auto, unfolding(crate::specs::Words::words_in))]
pub(crate) fn words_in(table: &Value) -> Result<VenueWords, Fault>
    ensures { result ≡ words_in (view table.now) }
{
    let dialect = value_at(table, Key::Dialect)?.unwrap_or(AnyDialect::Plain);
    match (table.get("words"), table.get("order")) {
        (None, None) => Ok(VenueWords::Preset(dialect)),
        (words, order) => Ok(VenueWords::Table(table_by(dialect, words, order)?)),
    }
}
