//! The line of a venue's legs in doubt, from the words of a case.

use crate::answer_words::{first_word, venue_named};
use case_text::{Answers, PlayFault};
use desk_news::doubt_line;
use dialect::{Plain, Spelling};
use leg::LegId;
use std::alloc::Global;

/// The leg of `S3L1`.
fn leg_id(word: &str) -> Result<LegId, PlayFault> {
    Plain
        .read_id(word.as_bytes())
        .ok_or(PlayFault::NotUnderstood)
}

/// The legs of `S3L1 S4L2`.
fn legs(alloc: Global, text: &str) -> Result<Vec<LegId>, PlayFault> {
    let mut legs = Vec::new(alloc);
    for word in text.split(' ') {
        legs.push(leg_id(word)?)?;
    }
    Ok(legs)
}

/// The line of a venue and its legs in doubt, of `VENUE LEGS`.
pub fn say_doubt(alloc: Global, text: &str, answers: &mut Answers) -> Result<(), PlayFault> {
    let (name, text) = first_word(text)?;
    let venue = venue_named(name)?;
    let legs = legs(alloc, text)?;
    let line = doubt_line(alloc, &venue, &legs)?;
    answers.say(line.as_str())
}
