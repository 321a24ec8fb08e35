//! A table at the head of a log.

ghost use Rattle.std.specs.Prelude.{◌≡◌, ◌++◌, IfOk, string_bytes};
ghost use Rattle.venue_words.specs.Head.{field_line, field_lines, field_text, forms_line, price_text, symbol_text};
ghost use Rattle.venue_words.specs.Head.{table_text};

use crate::example::example_leg;
use crate::table::WordTable;
use dialect::{Extra, PriceShape, Spelling, SymbolShape};
use std::alloc::{AllocError, Global};

fn price_text(price: PriceShape) -> &'static str
    ensures { result.now ≡ price_text price }
{
    match price {
        PriceShape::Short => "short",
        PriceShape::Four => "4",
        PriceShape::Least { more: 0 } => "1",
        PriceShape::Least { more: 1 } => "2",
        PriceShape::Least { more: _ } => "3",
    }
}

/// A field, as `528=P`.
fn field_text(alloc: Global, tag: u32, value: &[u8]) -> Result<Vec<u8>, AllocError>
    ensures { IfOk result (λ text. text.items ≡ field_text tag value.now) }
{
    let mut text = format!(in alloc; "{tag}=")?.into_bytes();
    text.extend_from_slice(value)?;
    Ok(text)
}

/// Appends what stands before a suffix, or `55+65`.
fn append_symbol(symbol: &SymbolShape, text: &mut Vec<u8>) -> Result<(), AllocError>
    ensures { IfOk result (λ _. text.new.items ≡ text.old.items ++ symbol_text symbol.now) }
{
    match symbol {
        SymbolShape::Joined { separator } => {
            text.push(*separator)?;
            Ok(())
        }
        SymbolShape::Parted => text.extend_from_slice(b"55+65"),
    }
}

/// The line of all but the fields of every order.
fn forms_line(alloc: Global, table: &WordTable) -> Result<Vec<u8>, AllocError>
    ensures { IfOk result (λ text. text.items ≡ forms_line table.now) }
{
    let words = table.words();
    let mark = field_text(alloc, words.mark_tag, words.mark_value.as_slice())?;
    let mut text = Vec::new(alloc);
    text.extend_from_slice(b"# words id ")?;
    text.extend_from_slice(table.dialect().id_text(&example_leg()).as_slice())?;
    text.extend_from_slice(b" mark ")?;
    text.extend_from_slice(&mark)?;
    text.extend_from_slice(b" price ")?;
    text.extend_from_slice(price_text(words.price).as_bytes())?;
    text.extend_from_slice(b" symbol ")?;
    append_symbol(&words.symbol, &mut text)?;
    text.push(b'\n')?;
    Ok(text)
}

/// The line of a field that every order carries.
fn field_line(alloc: Global, field: &Extra) -> Result<Vec<u8>, AllocError>
    ensures { IfOk result (λ text. text.items ≡ field_line field.now) }
{
    let shown = field_text(alloc, field.tag, field.value.as_slice())?;
    let mut text = Vec::new(alloc);
    text.extend_from_slice(b"# order ")?;
    text.extend_from_slice(&shown)?;
    text.push(b'\n')?;
    Ok(text)
}

/// A line for each of these fields.
fn field_lines(alloc: Global, fields: &[Extra]) -> Result<Vec<u8>, AllocError>
    ensures { IfOk result (λ text. text.items ≡ field_lines fields.now) }
{
    match fields {
        [] => Ok(Vec::new(alloc)),
        [first, rest @ ..] => {
            let mut text = field_line(alloc, first)?;
            text.extend_from_slice(&field_lines(alloc, rest)?)?;
            Ok(text)
        }
    }
}

/// The lines of a table at the head of a log, each with its end: one of how it spells, and one for each field that
/// every order carries.
#[tactic(auto, unfolding(crate::specs::Head::table_text))]
pub fn table_text(alloc: Global, table: &WordTable) -> Result<Vec<u8>, AllocError>
    ensures { IfOk result (λ text. text.items ≡ table_text table.now) }
{
    let mut text = forms_line(alloc, table)?;
    text.extend_from_slice(&field_lines(alloc, table.words().extra.as_slice())?)?;
    Ok(text)
}
