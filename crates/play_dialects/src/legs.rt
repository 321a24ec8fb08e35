//! The parts of a leg, what becomes of its shares, and a sweep.

use crate::leg_text::{leg_in, terms_in};
use case_text::{Answers, PlayFault, number};
use leg::{LegFault, Legs, Routed, Split, Sweep, Symbol, Terms, VenueId};
use std::alloc::Global;
use std::fmt::Display;

/// Answers a value, or why there is none.
fn answer<T: Display + Drop>(
    alloc: Global,
    made: Result<T, LegFault>,
    answers: &mut Answers,
) -> Result<(), PlayFault> {
    match made {
        Ok(value) => answers.say(&format!(in alloc; "{value}")?),
        Err(fault) => answers.say(&format!(in alloc; "refused {fault}")?),
    }
}

/// Answers terms as a leg prints them, or why there are none.
fn answer_terms(
    alloc: Global,
    made: Result<Terms, LegFault>,
    answers: &mut Answers,
) -> Result<(), PlayFault> {
    match made {
        Ok(terms) => {
            let text = terms_text(alloc, &terms)?;
            answers.say(&text)
        }
        Err(fault) => answers.say(&format!(in alloc; "refused {fault}")?),
    }
}

fn terms_text(alloc: Global, terms: &Terms) -> Result<String, PlayFault> {
    let (symbol, side) = (terms.symbol(), terms.side());
    let (shares, price) = (terms.shares(), terms.price());
    Ok(format!(in alloc; "{symbol} {side} {shares} {price}")?)
}

fn venue_in(word: &str) -> Result<Result<VenueId, LegFault>, PlayFault> {
    let venue = u8::try_from(number(word)?).map_err(|_| PlayFault::NotUnderstood)?;
    Ok(VenueId::new(venue))
}

/// Answers the legs of a sweep of one, which it gives back.
fn answer_sweep(
    alloc: Global,
    venue: &str,
    terms: &[&str],
    answers: &mut Answers,
) -> Result<(), PlayFault> {
    let (Ok(venue), Ok(terms)) = (venue_in(venue)?, terms_in(terms)?) else {
        return Err(PlayFault::NotUnderstood);
    };
    let sweep = Sweep {
        legs: Legs::new(vec![in alloc; Routed { venue, terms }]?),
    };
    let (count, empty) = (sweep.legs.len(), sweep.legs.is_empty());
    answers.say(&format!(in alloc; "{count} legs, empty {empty}")?)?;
    let Sweep { legs } = sweep;
    for leg in legs.into_vec() {
        let terms = terms_text(alloc, &leg.terms)?;
        answers.say(&format!(in alloc; "to {} {terms}", leg.venue)?)?;
    }
    Ok(())
}

/// Answers the part of a leg that the words make.
pub fn answer_part(alloc: Global, words: &[&str], answers: &mut Answers) -> Result<(), PlayFault> {
    match words {
        ["symbol"] => answer(alloc, Symbol::new(b"", b""), answers),
        ["symbol", root] => answer(alloc, Symbol::new(root.as_bytes(), b""), answers),
        ["symbol", root, suffix] => {
            let made = Symbol::new(root.as_bytes(), suffix.as_bytes());
            answer(alloc, made, answers)
        }
        ["terms", rest @ ..] => answer_terms(alloc, terms_in(rest)?, answers),
        ["venue", number] => answer(alloc, venue_in(number)?, answers),
        ["leg", rest @ ..] => answer(alloc, Ok(leg_in(rest)?), answers),
        ["sweep", venue, terms @ ..] => answer_sweep(alloc, venue, terms, answers),
        _ => Err(PlayFault::NotUnderstood),
    }
}

/// A leg's shares, all still open.
pub fn new_split(word: &str) -> Result<Split, PlayFault> {
    let shares = number(word)?;
    if shares < 1 || shares > leg::MAX_SHARES {
        return Err(PlayFault::NotUnderstood);
    }
    Ok(Split::new(shares))
}

/// Moves shares.
fn moved(split: &mut Split, words: &[&str]) -> Result<Result<(), LegFault>, PlayFault> {
    match words {
        ["fill", shares] => Ok(split.fill(number(shares)?)),
        ["bust", shares] => Ok(split.bust(number(shares)?)),
        ["withdraw"] => Ok(split.withdraw()),
        ["cancel_rest"] => {
            split.cancel_rest();
            Ok(Ok(()))
        }
        _ => Err(PlayFault::NotUnderstood),
    }
}

/// Moves shares, and answers the five parts, or why they aren't moved.
pub fn answer_split(
    alloc: Global,
    split: &mut Split,
    words: &[&str],
    answers: &mut Answers,
) -> Result<(), PlayFault> {
    if let Err(fault) = moved(split, words)? {
        answers.say(&format!(in alloc; "refused {fault}")?)?;
    }
    let (filled, busted, cancelled) = (split.filled(), split.busted(), split.cancelled());
    let (withdrawn, open, shares) = (split.withdrawn(), split.still_open(), split.shares());
    answers.say(&format!(in alloc;
        "filled {filled} busted {busted} cancelled {cancelled} withdrawn {withdrawn} open {open} of {shares}"
    )?)
}
