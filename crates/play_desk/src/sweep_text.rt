//! Sweeps as text.

use case_text::{PlayFault, number, words};
use dialect::read_symbol;
use leg::{Legs, Routed, Side, Sweep, Symbol, Terms, VenueId};
use std::alloc::Global;

/// The most legs of one part of a sweep, more than a sweep may have.
const MAX_COUNT: u64 = 1_000;

/// The venue of a number, whether the desk has it or not.
pub fn any_venue(word: &str) -> Result<VenueId, PlayFault> {
    let number = u8::try_from(number(word)?).map_err(|_| PlayFault::NotUnderstood)?;
    VenueId::new(number).map_err(|_| PlayFault::NotUnderstood)
}

fn symbol_of(word: &str) -> Result<Symbol, PlayFault> {
    read_symbol(word.as_bytes()).ok_or(PlayFault::NotUnderstood)
}

fn side_of(word: &str) -> Result<Side, PlayFault> {
    match word {
        "buy" => Ok(Side::Buy),
        "sell" => Ok(Side::Sell),
        _ => Err(PlayFault::NotUnderstood),
    }
}

/// The terms of these words, as `BRK.B buy 100 102500`.
fn terms_of(symbol: &str, side: &str, shares: &str, price: &str) -> Result<Terms, PlayFault> {
    let shares = number(shares)?;
    let price = number(price)?;
    let side = side_of(side)?;
    Terms::new(symbol_of(symbol)?, side, shares, price).map_err(|_| PlayFault::NotUnderstood)
}

/// The order of these words, as `0 BRK.B buy 100 102500`, and how many of it: `32 of` before them says so.
fn part_of(words: &[&str]) -> Result<(u64, Routed), PlayFault> {
    match words {
        [venue, symbol, side, shares, price] => {
            let venue = any_venue(venue)?;
            let terms = terms_of(symbol, side, shares, price)?;
            Ok((1, Routed { venue, terms }))
        }
        [count, "of", venue, symbol, side, shares, price] => {
            let count = number(count)?.min(MAX_COUNT);
            let venue = any_venue(venue)?;
            let terms = terms_of(symbol, side, shares, price)?;
            Ok((count, Routed { venue, terms }))
        }
        _ => Err(PlayFault::NotUnderstood),
    }
}

/// Adds the legs of a part of a sweep.
fn add_part(alloc: Global, text: &str, legs: &mut Vec<Routed>) -> Result<(), PlayFault> {
    let words = words(alloc, text)?;
    let (count, routed) = part_of(&words)?;
    for _ in 0..count {
        legs.push(routed.clone()?)?;
    }
    Ok(())
}

/// The sweep of this text, as `0 BRK.B buy 100 102500 + 32 of 1 IBM buy 10 100000`. The empty text is one of no legs.
pub fn sweep_of(alloc: Global, text: &str) -> Result<Sweep, PlayFault> {
    let mut legs = Vec::new(alloc);
    if !text.is_empty() {
        for part in text.split(" + ") {
            add_part(alloc, part, &mut legs)?;
        }
    }
    Ok(Sweep {
        legs: Legs::new(legs),
    })
}
