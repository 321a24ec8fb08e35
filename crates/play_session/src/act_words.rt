//! What is done to a session, by its words.

use crate::act::Act;
use case_text::{PlayFault, number};
use dialect::{Plain, Spelling, read_symbol};
use fix_tags::read_price;
use leg::{Leg, LegId, Side, Symbol, Terms};

fn id_of(word: &str) -> Result<LegId, PlayFault> {
    Plain
        .read_id(word.as_bytes())
        .ok_or(PlayFault::NotUnderstood)
}

fn symbol_of(word: &str) -> Result<Symbol, PlayFault> {
    read_symbol(word.as_bytes()).ok_or(PlayFault::NotUnderstood)
}

fn side_of(word: &str) -> Result<Side, PlayFault> {
    match word {
        "buy" => Ok(Side::Buy),
        "sell" => Ok(Side::Sell),
        _ => Err(PlayFault::NotUnderstood),
    }
}

fn price_of(word: &str) -> Result<u64, PlayFault> {
    read_price(word.as_bytes()).ok_or(PlayFault::NotUnderstood)
}

/// The terms of these words, as `BRK.B buy 100 10.25`.
fn terms_of(symbol: &str, side: &str, shares: &str, price: &str) -> Result<Terms, PlayFault> {
    let shares = number(shares)?;
    let price = price_of(price)?;
    let side = side_of(side)?;
    Terms::new(symbol_of(symbol)?, side, shares, price).map_err(|_| PlayFault::NotUnderstood)
}

/// What a command of these words does to a session.
pub fn act_of(words: &[&str]) -> Result<Act, PlayFault> {
    match words {
        ["connect"] => Ok(Act::Connect),
        ["leg", ordinal, id, symbol, side, shares, price] => {
            let ordinal = number(ordinal)?;
            let id = id_of(id)?;
            let terms = terms_of(symbol, side, shares, price)?;
            Ok(Act::Leg(ordinal, Leg { id, terms }))
        }
        ["confirm"] => Ok(Act::Confirm),
        ["quiet"] => Ok(Act::Quiet),
        ["silent"] => Ok(Act::Silent),
        ["close"] => Ok(Act::Close),
        ["malformed"] => Ok(Act::Malformed),
        ["broken"] => Ok(Act::Broken),
        ["abandon"] => Ok(Act::Abandon),
        _ => Err(PlayFault::NotUnderstood),
    }
}
