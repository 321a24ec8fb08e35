//! Values that are looked for in fields, and sums.

use case_fields::{field_tag, fields_in, frame_text, lent};
use case_text::{Answers, PlayFault, bytes_of, shown};
use fix_text::{Field, Frame, Place, ReaderFault, TextFault, first, first_ref, sum256};
use std::alloc::Global;

/// Answers the value that was found, or that there is none.
fn answer_value(
    alloc: Global,
    found: &str,
    value: Option<&[u8]>,
    answers: &mut Answers,
) -> Result<(), PlayFault> {
    match value {
        Some(value) => {
            let value = shown(alloc, value)?;
            answers.say(&format!(in alloc; "{found}={value}")?)
        }
        None => answers.say(&format!(in alloc; "no {found}")?),
    }
}

/// A tag, and the text behind it.
fn tag_and_text(text: &str) -> Result<(u32, &str), PlayFault> {
    let (tag, text) = text.split_once(' ').ok_or(PlayFault::NotUnderstood)?;
    Ok((field_tag(tag)?, text))
}

/// The first value of a tag among fields that are owned, and among the same fields lent.
fn answer_first(
    alloc: Global,
    tag: u32,
    fields: &[Field],
    answers: &mut Answers,
) -> Result<(), PlayFault> {
    answer_value(alloc, "owned value", first(fields, tag), answers)?;
    let lent = lent(alloc, fields)?;
    answer_value(alloc, "lent value", first_ref(&lent, tag), answers)
}

/// The fields of a text, or the value of one tag among them, if it is fields alone.
fn answer_fields(
    alloc: Global,
    tag: Option<u32>,
    text: &str,
    answers: &mut Answers,
) -> Result<(), PlayFault> {
    let bytes = bytes_of(alloc, text)?;
    let mut places: Vec<Place> = Vec::new(alloc);
    let frame = match Frame::read(&bytes, &mut places) {
        Ok(Some(frame)) => frame,
        Ok(None) => return answers.say("not fields"),
        Err(_) => return Err(PlayFault::OutOfMemory),
    };
    match tag {
        Some(tag) => answer_value(alloc, "value", frame.get(tag), answers),
        None if frame.is_empty() => answers.say("no fields"),
        None => {
            let count = frame.len();
            let fields = frame_text(alloc, &frame)?;
            answers.say(&format!(in alloc; "{count} fields {fields}")?)
        }
    }
}

/// The texts of the refusals.
fn answer_codes(alloc: Global, answers: &mut Answers) -> Result<(), PlayFault> {
    let faults = [
        TextFault::BadTag,
        TextFault::BadValue,
        TextFault::TooLong,
        TextFault::OutOfMemory,
    ];
    for fault in faults {
        answers.say(&format!(in alloc; "writing {fault}")?)?;
    }
    answers.say(&format!(in alloc; "reading {}", ReaderFault::OutOfMemory)?)
}

pub fn command(
    alloc: Global,
    word: &str,
    rest: &str,
    answers: &mut Answers,
) -> Result<(), PlayFault> {
    match word {
        "first" => {
            let (tag, text) = tag_and_text(rest)?;
            answer_first(alloc, tag, &fields_in(alloc, text)?, answers)
        }
        "fields" => answer_fields(alloc, None, rest, answers),
        "value" => {
            let (tag, text) = tag_and_text(rest)?;
            answer_fields(alloc, Some(tag), text, answers)
        }
        "sum" => {
            let sum = sum256(&bytes_of(alloc, rest)?);
            answers.say(&format!(in alloc; "{sum}")?)
        }
        "codes" => answer_codes(alloc, answers),
        _ => Err(PlayFault::NotUnderstood),
    }
}
