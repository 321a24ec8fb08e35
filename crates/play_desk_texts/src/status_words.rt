//! How venues and sweeps stand, and what a day came to, from the words of a case.

use crate::answer_words::{first_word, venue_named};
use crate::news_words::{paid_sweep, venue_state};
use case_text::{PlayFault, number};
use desk_news::{DayTotals, Status, VenueStatus};
use std::alloc::Global;

/// A venue's name, its legs unsent and in doubt, the lines lost of its log, and how it stands; before that, behind
/// `contradicted`, on how many legs its exchange contradicted itself, if it did.
fn venue_status(alloc: Global, text: &str) -> Result<VenueStatus, PlayFault> {
    let mut words = text.splitn(5, ' ');
    let (Some(name), Some(unsent), Some(doubt), Some(lost), Some(state)) = (
        words.next(),
        words.next(),
        words.next(),
        words.next(),
        words.next(),
    ) else {
        return Err(PlayFault::NotUnderstood);
    };
    let unsent = number(unsent)?;
    let doubt = number(doubt)?;
    let lost = number(lost)?;
    let (contradicted, state) = match state.strip_prefix("contradicted ") {
        Some(text) => {
            let (legs, state) = first_word(text)?;
            (number(legs)?, state)
        }
        None => (0, state),
    };
    let venue = venue_named(name)?;
    let state = venue_state(alloc, state)?;
    Ok(VenueStatus {
        venue,
        unsent,
        doubt,
        lost,
        contradicted,
        state,
    })
}

/// The status of `sweep NUMBER SHARES PARTS` or `venue NAME UNSENT DOUBT LOST STATE`, in which `contradicted LEGS` may
/// stand before the state.
pub fn status(alloc: Global, text: &str) -> Result<Status, PlayFault> {
    match text.split_once(' ') {
        Some(("sweep", text)) => paid_sweep(alloc, text).map(Status::Sweep),
        Some(("venue", text)) => venue_status(alloc, text).map(Status::Venue),
        _ => Err(PlayFault::NotUnderstood),
    }
}

/// What a day came to, of `PLACED RESOLVED OPEN`.
pub fn day_totals(text: &str) -> Result<DayTotals, PlayFault> {
    let mut words = text.split(' ');
    match (words.next(), words.next(), words.next(), words.next()) {
        (Some(placed), Some(resolved), Some(still_open), None) => Ok(DayTotals {
            placed: number(placed)?,
            resolved: number(resolved)?,
            still_open: number(still_open)?,
        }),
        _ => Err(PlayFault::NotUnderstood),
    }
}
