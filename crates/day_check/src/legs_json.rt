//! What became of the orders of a log, and of its sweeps, as JSON.

use crate::finding::{number, text};
use crate::json::{Member, Value, json_line};
use leg::Totals;
use log_legs::{
    LegSaid, SweepTotals, Watch, append_logged, append_price, append_symbol, side_shown, sums_of,
};
use std::alloc::{AllocError, Global};

/// A text that is lent.
fn bytes<'a>(name: &'a str, bytes: &'a [u8]) -> Member<'a> {
    Member {
        name,
        value: Value::Text(bytes),
    }
}

/// An order, whose id, symbol and price are shown so, as an object of JSON in a line.
fn leg_object(
    alloc: Global,
    log: &str,
    leg: &LegSaid<'_>,
    id: &[u8],
    symbol: &[u8],
    price: &[u8],
) -> Result<Vec<u8>, AllocError> {
    let Totals {
        filled,
        busted,
        cancelled,
        withdrawn,
        still_open,
    } = leg.totals;
    let members = [
        text("log", log),
        bytes("leg", id),
        text("fate", leg.fate.name()),
        number("number", leg.number),
        number("sent", leg.sent),
        bytes("symbol", symbol),
        text("side", side_shown(leg.side)),
        number("shares", leg.shares),
        bytes("price", price),
        number("filled", filled),
        number("busted", busted),
        number("cancelled", cancelled),
        number("withdrawn", withdrawn),
        number("open", still_open),
    ];
    json_line(alloc, &members)
}

/// An order, as an object of JSON in a line.
fn leg_json(alloc: Global, log: &str, leg: &LegSaid<'_>) -> Result<Vec<u8>, AllocError> {
    let mut id = Vec::new(alloc);
    append_logged(&mut id, leg.id.as_bytes())?;
    let mut symbol = Vec::new(alloc);
    append_symbol(&mut symbol, leg.symbol.as_bytes())?;
    let mut price = Vec::new(alloc);
    append_price(&mut price, leg.price)?;
    leg_object(alloc, log, leg, &id, &symbol, &price)
}

/// A sweep, as an object of JSON in a line.
pub(crate) fn sweep_json(
    alloc: Global,
    log: &str,
    sweep: u64,
    sums: &SweepTotals,
) -> Result<Vec<u8>, AllocError> {
    let Totals {
        filled,
        busted,
        cancelled,
        withdrawn,
        still_open,
    } = sums.totals;
    let members = [
        text("log", log),
        number("sweep", sweep),
        number("legs", sums.shares),
        number("filled", filled),
        number("busted", busted),
        number("cancelled", cancelled),
        number("withdrawn", withdrawn),
        number("open", still_open),
    ];
    json_line(alloc, &members)
}

/// An object of JSON for each order, and then one for each sweep, a line each.
pub(crate) fn legs_json(alloc: Global, log: &str, watch: &Watch) -> Result<Vec<u8>, AllocError> {
    let mut lines = Vec::new(alloc);
    for place in 0..watch.leg_count() {
        if let Some(leg) = watch.leg(place) {
            lines.extend_from_slice(&leg_json(alloc, log, &leg)?)?;
        }
    }
    let sums = sums_of(alloc, watch)?;
    for (number, sweep) in &sums.by_number {
        lines.extend_from_slice(&sweep_json(alloc, log, *number, sweep)?)?;
    }
    Ok(lines)
}
