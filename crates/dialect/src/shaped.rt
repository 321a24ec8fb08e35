//! What a table says of a leg's number, a price and a symbol.

ghost use Rattle.std.specs.Prelude.{◌≡◌, ℕ, List, ◌≤◌, ◌+◌, ◌<◌, ◌++◌, ◌∷◌, true, option_and_then, OnErr, length, map, take, drop};
ghost use Rattle.std.specs.List.{AllByRecursion};
ghost use Rattle.fix_text.specs.Sink.{Pushes};
ghost use Rattle.dialect.specs.Digits.{digits};
ghost use Rattle.dialect.specs.FixedId.{fixed_id_of};
ghost use Rattle.dialect.specs.Split.{parts_round};
ghost use Rattle.dialect.specs.Words.{is_id_shape, shaped_id_text, shaped_id_of, shaped_price, is_price_shape, price_least, shaped_symbol_fields, shaped_symbol_in, extra_field};

use crate::digits::append_digits;
use crate::fault::DialectFault;
use crate::fixed_id::{PLACE_DIGITS, read_fixed_id};
use crate::plain_id::{plain_id_text, read_plain_id};
use crate::push::push_short;
use crate::spelling::{IdText, Spelling};
use crate::split::split_round;
use crate::split4::Split4;
use crate::symbol_text::{joined_symbol_in, joined_symbol_text};
use crate::tag::SYMBOL;
use crate::words::{Extra, IdShape, PriceShape, SymbolShape};
use fix_tags::{AppFields, PriceText, price_four_text, price_short_text};
use fix_text::FieldSink;
use leg::{LegId, Symbol};
use std::alloc::{AllocError, Global};

fn parted_id_text(base: u64, width: usize, separator: u8, id: &LegId) -> IdText
    requires low { 1 ≤ base }
    requires high { base ≤ 16 }
    requires short { width ≤ 21 }
    ensures { result.items ≡ digits base width id.now.sweep ++ separator ∷ digits base 2 id.now.place }
{
    let mut text = IdText::new();
    append_digits(base, width, id.sweep(), &mut text);
    text.push(separator);
    append_digits(base, PLACE_DIGITS, u64::from(id.place()), &mut text);
    text
}

fn joined_id_text(base: u64, width: usize, id: &LegId) -> IdText
    requires low { 1 ≤ base }
    requires high { base ≤ 16 }
    requires short { width ≤ 21 }
    ensures { result.items ≡ digits base width id.now.sweep ++ digits base 2 id.now.place }
{
    let mut text = IdText::new();
    append_digits(base, width, id.sweep(), &mut text);
    append_digits(base, PLACE_DIGITS, u64::from(id.place()), &mut text);
    text
}

/// The text of a leg's number.
#[tactic(auto, unfolding(crate::specs::Words::shaped_id_text))]
pub(crate) fn id_text(shape: &IdShape, id: &LegId) -> IdText
    requires { is_id_shape shape.now ≡ true }
    ensures { result.items ≡ shaped_id_text shape.now id.now }
{
    match shape {
        IdShape::Short => plain_id_text(id),
        IdShape::Parted {
            base,
            width,
            separator,
        } => parted_id_text(*base, *width, *separator, id),
        IdShape::Joined { base, width } => joined_id_text(*base, *width, id),
    }
}

fn read_parted(base: u64, width: usize, separator: u8, text: &[u8]) -> Option<LegId>
    requires low { 1 ≤ base }
    requires high { base ≤ 16 }
    ensures { result ≡ option_and_then (λ (parts : List ℕ × List ℕ). fixed_id_of base width parts.0 parts.1)
        (parts_round separator text.now) }
{
    let (sweep, place) = split_round(text, separator)?;
    read_fixed_id(base, width, sweep, place)
}

fn read_joined(base: u64, width: usize, text: &[u8]) -> Option<LegId>
    requires low { 1 ≤ base }
    requires high { base ≤ 16 }
    ensures { result ≡ fixed_id_of base width (take width text.now) (drop width text.now) }
{
    let (sweep, place) = text.split_at_checked(width)?;
    read_fixed_id(base, width, sweep, place)
}

/// Reads the text of a leg's number.
#[tactic(auto, unfolding(crate::specs::Words::shaped_id_of))]
pub(crate) fn read_id(shape: &IdShape, text: &[u8]) -> Option<LegId>
    requires { is_id_shape shape.now ≡ true }
    ensures { result ≡ shaped_id_of shape.now text.now }
{
    match shape {
        IdShape::Short => read_plain_id(text),
        IdShape::Parted {
            base,
            width,
            separator,
        } => read_parted(*base, *width, *separator, text),
        IdShape::Joined { base, width } => read_joined(*base, *width, text),
    }
}

/// The text of a price with so many decimals at least.
fn least_price_text(least: usize, price: u64) -> PriceText
    requires { least ≤ 4 }
    ensures value { result.items ≡ price_least least price }
    ensures short { length result.items ≤ 24 }
{
    let short = price_short_text(price);
    let mut cut = price_four_text(price);
    cut.truncate(cut.len() - (4 - least));
    if short.len() < cut.len() { cut } else { short }
}

/// The text of a price.
#[tactic(auto, unfolding(crate::specs::Words::shaped_price, crate::specs::Words::is_price_shape))]
pub(crate) fn price_text(shape: PriceShape, price: u64) -> PriceText
    requires { is_price_shape shape ≡ true }
    ensures value { result.items ≡ shaped_price shape price }
    ensures short { length result.items ≤ 24 }
{
    match shape {
        PriceShape::Short => price_short_text(price),
        PriceShape::Four => price_four_text(price),
        PriceShape::Least { more } => least_price_text(more + 1, price),
    }
}

/// Pushes the fields of a symbol.
#[tactic(auto, unfolding(crate::specs::Words::shaped_symbol_fields))]
pub(crate) fn push_symbol<F: FieldSink>(
    shape: &SymbolShape,
    alloc: Global,
    symbol: &Symbol,
    fields: &mut F,
) -> Result<(), AllocError>
    ensures pushed { Pushes F.Takes (shaped_symbol_fields shape.now symbol.now) fields.old fields.new result }
    ensures left { F.room fields.old ≤ F.room fields.new + 2 }
    ensures full { OnErr result (F.room fields.old < 2) }
{
    match shape {
        SymbolShape::Joined { separator } => push_short(
            alloc,
            SYMBOL,
            joined_symbol_text(*separator, symbol).as_slice(),
            fields,
        ),
        SymbolShape::Parted => Split4.push_symbol(alloc, symbol, fields),
    }
}

/// Pushes these fields.
pub(crate) fn push_extra<F: FieldSink>(
    alloc: Global,
    extra: &[Extra],
    fields: &mut F,
) -> Result<(), AllocError>
    requires { AllByRecursion (λ e. length e.value.items ≤ 24) extra.now }
    ensures pushed { Pushes F.Takes (map extra_field extra.now) fields.old fields.new result }
    ensures full { OnErr result (F.room fields.old < length extra.now) }
{
    match extra {
        [] => Ok(()),
        [first, rest @ ..] => {
            push_short(alloc, first.tag, first.value.as_slice(), fields)?;
            push_extra(alloc, rest, fields)
        }
    }
}

/// Reads a symbol.
#[tactic(auto, unfolding(crate::specs::Words::shaped_symbol_in))]
pub(crate) fn read_symbol(
    shape: &SymbolShape,
    fields: &AppFields<'_>,
) -> Result<Symbol, DialectFault>
    ensures { result ≡ shaped_symbol_in shape.now fields.now }
{
    match shape {
        SymbolShape::Joined { separator } => joined_symbol_in(*separator, fields),
        SymbolShape::Parted => Split4.read_symbol(fields),
    }
}
