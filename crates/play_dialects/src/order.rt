//! Orders in a dialect.

use crate::message::moment;
use case_fields::fields_text;
use case_text::{Answers, PlayFault, bytes_of};
use dialect::{AnyDialect, Dialect};
use fix_tags::AppFields;
use fix_text::{Field, Frame, Place};
use leg::Leg;
use std::alloc::Global;

/// A list that has a field already, behind which others are written.
pub fn begun(alloc: Global) -> Result<Vec<Field>, PlayFault> {
    let mut fields = Vec::new(alloc);
    fields.push(Field::from_slice(alloc, 1, b"before")?)?;
    Ok(fields)
}

/// Answers the fields that were written behind the one that was there.
pub fn answer_written(
    alloc: Global,
    fields: &[Field],
    answers: &mut Answers,
) -> Result<(), PlayFault> {
    match fields {
        [first, rest @ ..] if first.tag() == 1 && first.value() == b"before".as_slice() => {
            answers.send_fields(&fields_text(alloc, rest)?)
        }
        _ => answers.say("the list changed"),
    }
}

/// Writes the order of a leg.
pub fn write_order(
    alloc: Global,
    dialect: AnyDialect,
    leg: &Leg,
    answers: &mut Answers,
) -> Result<(), PlayFault> {
    let mut fields = begun(alloc)?;
    match dialect.write_order(alloc, leg, &moment()?, &mut fields) {
        Ok(()) => answer_written(alloc, &fields, answers),
        Err(_) => Err(PlayFault::OutOfMemory),
    }
}

/// Reads the order of these fields.
pub fn answer_order(
    alloc: Global,
    dialect: AnyDialect,
    text: &str,
    answers: &mut Answers,
) -> Result<(), PlayFault> {
    let bytes = bytes_of(alloc, text)?;
    let mut places: Vec<Place> = Vec::new(alloc);
    let Ok(Some(frame)) = Frame::read(&bytes, &mut places) else {
        return Err(PlayFault::NotUnderstood);
    };
    match dialect.read_order(&AppFields::new(frame)) {
        Ok(leg) => answers.say(&format!(in alloc; "{leg}")?),
        Err(fault) => answers.say(&format!(in alloc; "refused {fault}")?),
    }
}
