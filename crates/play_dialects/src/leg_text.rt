//! A leg from its printed form, as `S12L3 BRK.B buy 100 102500`.

use case_text::{PlayFault, number};
use dialect::{Plain, Spelling};
use leg::{Leg, LegFault, LegId, Side, Symbol, Terms};

/// The number of a leg.
pub fn leg_id_in(word: &str) -> Result<LegId, PlayFault> {
    Plain
        .read_id(word.as_bytes())
        .ok_or(PlayFault::NotUnderstood)
}

/// The symbol of a root and, behind a point, a suffix.
fn symbol_in(word: &str) -> Result<Symbol, LegFault> {
    let (root, suffix) = word.split_once('.').unwrap_or((word, ""));
    Symbol::new(root.as_bytes(), suffix.as_bytes())
}

fn side_in(word: &str) -> Result<Side, PlayFault> {
    match word {
        "buy" => Ok(Side::Buy),
        "sell" => Ok(Side::Sell),
        _ => Err(PlayFault::NotUnderstood),
    }
}

/// The terms of four words, or why there are none.
pub fn terms_in(words: &[&str]) -> Result<Result<Terms, LegFault>, PlayFault> {
    let [symbol, side, shares, price] = words else {
        return Err(PlayFault::NotUnderstood);
    };
    let (side, shares, price) = (side_in(side)?, number(shares)?, number(price)?);
    Ok(match symbol_in(symbol) {
        Ok(symbol) => Terms::new(symbol, side, shares, price),
        Err(fault) => Err(fault),
    })
}

/// The leg of five words.
pub fn leg_in(words: &[&str]) -> Result<Leg, PlayFault> {
    let [id, terms @ ..] = words else {
        return Err(PlayFault::NotUnderstood);
    };
    let id = leg_id_in(id)?;
    match terms_in(terms)? {
        Ok(terms) => Ok(Leg { id, terms }),
        Err(_) => Err(PlayFault::NotUnderstood),
    }
}
