//! What a line is answered, from the words of a case.

use case_text::{PlayFault, number};
use desk_answers::{Answer, Refusal};
use desk_words::VenueName;

/// The venue of this name.
pub fn venue_named(word: &str) -> Result<VenueName, PlayFault> {
    VenueName::new(word.as_bytes()).ok_or(PlayFault::NotUnderstood)
}

/// A word, and what stands behind it.
pub fn first_word(text: &str) -> Result<(&str, &str), PlayFault> {
    text.split_once(' ').ok_or(PlayFault::NotUnderstood)
}

/// The answer to a sweep that was placed, of `NUMBER SHARES`.
pub fn placed(text: &str) -> Result<Answer, PlayFault> {
    let (sweep, shares) = first_word(text)?;
    Ok(Answer::Placed {
        sweep: number(sweep)?,
        shares: number(shares)?,
    })
}

/// The answer to a sweep that was placed before, of `NUMBER SHARES`.
pub fn again(text: &str) -> Result<Answer, PlayFault> {
    let (sweep, shares) = first_word(text)?;
    Ok(Answer::Again {
        sweep: number(sweep)?,
        shares: number(shares)?,
    })
}

/// The refusal that names a venue, of its code.
fn refusal_at(code: &str, venue: VenueName) -> Result<Refusal, PlayFault> {
    match code {
        "R04" => Ok(Refusal::GateDown(venue)),
        "R05" => Ok(Refusal::BacklogFull(venue)),
        _ => Err(PlayFault::NotUnderstood),
    }
}

/// The refusal that names none.
fn plain_refusal(code: &str) -> Result<Refusal, PlayFault> {
    match code {
        "R01" => Ok(Refusal::NoLegs),
        "R02" => Ok(Refusal::TooManyLegs),
        "R03" => Ok(Refusal::UnknownVenue),
        "R06" => Ok(Refusal::SweepsSpent),
        "R07" => Ok(Refusal::OutOfMemory),
        "R08" => Ok(Refusal::WrongBook),
        "R09" => Ok(Refusal::OtherLegs),
        "R10" => Ok(Refusal::NoReference),
        _ => Err(PlayFault::NotUnderstood),
    }
}

/// The answer to a sweep that was refused, of `R01`, `R04 VENUE` or `closing`.
pub fn refused(text: &str) -> Result<Answer, PlayFault> {
    if text == "closing" {
        return Ok(Answer::Closing);
    }
    match text.split_once(' ') {
        Some((code, name)) => refusal_at(code, venue_named(name)?).map(Answer::Refused),
        None => plain_refusal(text).map(Answer::Refused),
    }
}
