//! What a desk is told, from the words of a case.

use crate::answer_words::{first_word, venue_named};
use crate::ending_words::{cause, told};
use case_text::{PlayFault, number, words};
use desk_news::{News, Paid, PaidSweep, SweepParts, VenueState};
use leg::Totals;
use leg_worth::Worth;
use std::alloc::Global;

/// The five parts of shares, of their words.
fn totals(words: &[&str]) -> Result<Totals, PlayFault> {
    match words {
        [filled, busted, cancelled, withdrawn, still_open] => Ok(Totals {
            filled: number(filled)?,
            busted: number(busted)?,
            cancelled: number(cancelled)?,
            withdrawn: number(withdrawn)?,
            still_open: number(still_open)?,
        }),
        _ => Err(PlayFault::NotUnderstood),
    }
}

/// A sweep's number, its shares, and their five parts.
fn sweep_parts(alloc: Global, text: &str) -> Result<SweepParts, PlayFault> {
    let words = words(alloc, text)?;
    match words.as_slice() {
        [sweep, shares, parts @ ..] => Ok(SweepParts {
            sweep: number(sweep)?,
            shares: number(shares)?,
            totals: totals(parts)?,
        }),
        _ => Err(PlayFault::NotUnderstood),
    }
}

/// What was paid for so many filled shares: the value in hundred-millionths, the shares of no known price, and those
/// that are disputed.
fn paid(alloc: Global, filled: u64, text: &str) -> Result<Paid, PlayFault> {
    let words = words(alloc, text)?;
    match words.as_slice() {
        [value, unpriced, disputed] => Ok(Paid {
            worth: Worth {
                value: u128::from(number(value)?),
                unpriced: number(unpriced)?,
            },
            filled,
            disputed: number(disputed)?,
        }),
        _ => Err(PlayFault::NotUnderstood),
    }
}

/// A sweep, and behind `paid` what was paid for it: nothing, where that isn't said.
pub fn paid_sweep(alloc: Global, text: &str) -> Result<PaidSweep, PlayFault> {
    match text.split_once(" paid ") {
        Some((text, told)) => {
            let parts = sweep_parts(alloc, text)?;
            let paid = paid(alloc, parts.totals.filled, told)?;
            Ok(PaidSweep { parts, paid })
        }
        None => {
            let parts = sweep_parts(alloc, text)?;
            let paid = paid(alloc, 0, "0 0 0")?;
            Ok(PaidSweep { parts, paid })
        }
    }
}

/// That a dial failed, of `SECONDS WHY`.
fn unreachable(alloc: Global, text: &str) -> Result<VenueState, PlayFault> {
    let (seconds, why) = first_word(text)?;
    let seconds = number(seconds)?;
    let why = told(alloc, why)?;
    Ok(VenueState::Unreachable { why, seconds })
}

/// How a venue stands where a word says it.
fn plain_state(word: &str) -> Result<VenueState, PlayFault> {
    match word {
        "dialled" => Ok(VenueState::Dialled),
        "up" => Ok(VenueState::Up),
        _ => Err(PlayFault::NotUnderstood),
    }
}

/// How a venue stands, of `dialled`, `up`, `down CAUSE`, `unreachable SECONDS WHY` or `closed CAUSE`.
pub fn venue_state(alloc: Global, text: &str) -> Result<VenueState, PlayFault> {
    match text.split_once(' ') {
        Some(("down", text)) => cause(alloc, text).map(VenueState::Down),
        Some(("unreachable", text)) => unreachable(alloc, text),
        Some(("closed", text)) => cause(alloc, text).map(VenueState::Closed),
        Some(_) => Err(PlayFault::NotUnderstood),
        None => plain_state(text),
    }
}

/// The news of a venue, of `NAME STATE`.
fn venue_news(alloc: Global, text: &str) -> Result<News, PlayFault> {
    let (name, state) = first_word(text)?;
    let venue = venue_named(name)?;
    let state = venue_state(alloc, state)?;
    Ok(News::Venue { venue, state })
}

/// That an exchange contradicted itself, of `NAME LEGS`.
fn contradicted(text: &str) -> Result<News, PlayFault> {
    let (name, legs) = first_word(text)?;
    let venue = venue_named(name)?;
    let legs = number(legs)?;
    Ok(News::Contradicted { venue, legs })
}

/// The news of `sweep NUMBER SHARES PARTS`, with `paid VALUE UNPRICED DISPUTED` behind it or not, of
/// `venue NAME STATE`, or of `contradicted NAME LEGS`.
pub fn news(alloc: Global, text: &str) -> Result<News, PlayFault> {
    match text.split_once(' ') {
        Some(("sweep", text)) => paid_sweep(alloc, text).map(News::Sweep),
        Some(("venue", text)) => venue_news(alloc, text),
        Some(("contradicted", text)) => contradicted(text),
        _ => Err(PlayFault::NotUnderstood),
    }
}
