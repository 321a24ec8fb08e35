//! The line of an order, and that of a sweep.
ghost use Rattle.std.specs.Prelude.{◌≡◌, ◌++◌, decimal, string_bytes, OnOk};
ghost use Rattle.desk_news.specs.Sweep.{parts_text};
ghost use Rattle.log_legs.specs.LegLine.{head_shown, leg_line, price_shown, side_shown, sweep_line, symbol_shown, terms_shown};

use crate::leg_said::LegSaid;
use crate::logged::append_logged;
use crate::sweep_sums::SweepTotals;
use desk_news::SweepParts;
use fix_tags::price_short_text;
use itoa::Buffer;
use leg::{Side, Totals};
use std::alloc::{AllocError, Global};

/// Appends a name and a number behind it.
fn append_named(text: &mut Vec<u8>, name: &str, number: u64) -> Result<(), AllocError>
    ensures { OnOk result (text.new.items ≡ text.old.items ++ name.now ++ decimal number) }
{
    let mut digits = Buffer::new();
    text.extend_from_slice(name.as_bytes())?;
    text.extend_from_slice(digits.format(number).as_bytes())
}

/// Appends the symbol, and `?` where there is none.
pub fn append_symbol(text: &mut Vec<u8>, symbol: &[u8]) -> Result<(), AllocError>
    ensures { OnOk result (text.new.items ≡ text.old.items ++ symbol_shown symbol.now) }
{
    if symbol.is_empty() {
        text.push(b'?')?;
    }
    append_logged(text, symbol)
}

/// The side in a word, and `?` where it is none.
pub fn side_shown(side: Option<Side>) -> &'static str
    ensures { result.now ≡ side_shown side }
{
    match side {
        Some(Side::Buy) => "buy",
        Some(Side::Sell) => "sell",
        None => "?",
    }
}

/// Appends the price in dollars, and `?` where it is none.
pub fn append_price(text: &mut Vec<u8>, price: Option<u64>) -> Result<(), AllocError>
    ensures { OnOk result (text.new.items ≡ text.old.items ++ price_shown price) }
{
    match price {
        Some(price) => text.extend_from_slice(price_short_text(price).as_slice())?,
        None => text.push(b'?')?,
    }
    Ok(())
}

/// Appends the order's terms, as `IBM buy 100 10.25`.
pub fn append_terms(text: &mut Vec<u8>, leg: &LegSaid<'_>) -> Result<(), AllocError>
    ensures { OnOk result (text.new.items ≡ text.old.items ++ terms_shown leg.now) }
{
    append_symbol(text, leg.symbol.as_bytes())?;
    text.push(b' ')?;
    text.extend_from_slice(side_shown(leg.side).as_bytes())?;
    append_named(text, " ", leg.shares)?;
    text.push(b' ')?;
    append_price(text, leg.price)
}

/// Writes the five parts of an order's shares.
fn write_parts(text: &mut String, totals: &Totals) -> Result<(), AllocError>
    ensures { OnOk result (string_bytes text.new ≡ string_bytes text.old ++ parts_text totals.now) }
{
    let filled = totals.filled;
    let busted = totals.busted;
    let cancelled = totals.cancelled;
    let withdrawn = totals.withdrawn;
    let still_open = totals.still_open;
    write!(
        text,
        "filled {filled} busted {busted} cancelled {cancelled} withdrawn {withdrawn} open {still_open}"
    )?;
    Ok(())
}

/// Appends the five parts of an order's shares.
fn append_parts(alloc: Global, text: &mut Vec<u8>, totals: &Totals) -> Result<(), AllocError>
    ensures { OnOk result (text.new.items ≡ text.old.items ++ parts_text totals.now) }
{
    let mut parts = String::new(alloc);
    write_parts(&mut parts, totals)?;
    text.extend_from_slice(parts.as_bytes())
}

/// Appends which order it is, what became of it, and how it was sent.
fn append_head(text: &mut Vec<u8>, leg: &LegSaid<'_>) -> Result<(), AllocError>
    ensures { OnOk result (text.new.items ≡ text.old.items ++ head_shown leg.now) }
{
    text.extend_from_slice(b"leg ")?;
    append_logged(text, leg.id.as_bytes())?;
    text.push(b' ')?;
    text.extend_from_slice(leg.fate.name().as_bytes())?;
    append_named(text, " number ", leg.number)?;
    append_named(text, " sent ", leg.sent)?;
    text.push(b' ')?;
    Ok(())
}

/// Appends the line of an order, with its end.
pub(crate) fn append_leg(
    alloc: Global,
    text: &mut Vec<u8>,
    leg: &LegSaid<'_>,
) -> Result<(), AllocError>
    ensures { OnOk result (text.new.items ≡ text.old.items ++ leg_line leg.now) }
{
    append_head(text, leg)?;
    append_terms(text, leg)?;
    text.push(b' ')?;
    append_parts(alloc, text, &leg.totals)?;
    text.push(b'\n')?;
    Ok(())
}

/// Appends the line of a sweep, with its end.
pub(crate) fn append_sweep(
    alloc: Global,
    text: &mut Vec<u8>,
    number: u64,
    sums: &SweepTotals,
) -> Result<(), AllocError>
    ensures { OnOk result (text.new.items ≡ text.old.items ++ sweep_line number sums.now) }
{
    let parts = SweepParts {
        sweep: number,
        shares: sums.shares,
        totals: sums.totals,
    };
    let line = format!(in alloc; "{parts}\n")?;
    text.extend_from_slice(line.as_bytes())
}
