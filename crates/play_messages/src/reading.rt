//! Frames that are read as messages.

use crate::body_text::body_text;
use case_fields::expanded;
use case_text::{Answers, PlayFault, bytes_of, fields_of, shown};
use fix_tags::{EnvelopeRef, read_envelope};
use fix_text::{Frame, Place};
use std::alloc::Global;

/// A message that was read from this frame, in the words that `envelope_in` reads.
fn envelope_text(
    alloc: Global,
    frame: &Frame<'_>,
    read: &EnvelopeRef<'_>,
) -> Result<String, PlayFault> {
    let sender = shown(alloc, read.sender())?;
    let target = shown(alloc, read.target())?;
    let number = read.number();
    let dup = if read.poss_dup() { "dup " } else { "" };
    let resend = if read.poss_resend() { "resend " } else { "" };
    let body = body_text(alloc, frame, read.body())?;
    Ok(format!(in alloc; "{sender} {target} {number} {dup}{resend}{body}")?)
}

/// Answers the message of a frame, or its first fault.
fn answer_message(
    alloc: Global,
    frame: &Frame<'_>,
    answers: &mut Answers,
) -> Result<(), PlayFault> {
    match read_envelope(frame) {
        Ok(read) => answers.say(&envelope_text(alloc, frame, &read)?),
        Err(fault) => answers.say(&format!(in alloc; "refused {fault}")?),
    }
}

/// Reads the message of these fields.
pub fn answer_fields(alloc: Global, text: &str, answers: &mut Answers) -> Result<(), PlayFault> {
    let bytes = bytes_of(alloc, &expanded(alloc, text)?)?;
    let mut places: Vec<Place> = Vec::new(alloc);
    match Frame::read(&bytes, &mut places) {
        Ok(Some(frame)) => answer_message(alloc, &frame, answers),
        Ok(None) => Err(PlayFault::NotUnderstood),
        Err(_) => Err(PlayFault::OutOfMemory),
    }
}

/// Reads the message of a whole frame.
pub fn answer_frame(alloc: Global, text: &str, answers: &mut Answers) -> Result<(), PlayFault> {
    let fields = fields_of(alloc, &bytes_of(alloc, text)?)?;
    answer_fields(alloc, &fields, answers)
}
