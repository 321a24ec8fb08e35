//! Single values: what is read of a text, and what is written of a value.

use case_text::{Answers, PlayFault, bytes_of, flag, number, shown, words};
use fix_tags::{
    CompId, Stamp, TagFault, WriteFault, is_comp_id, read_flag, read_number, read_price,
    read_shares, read_stamp, write_flag, write_number, write_price_four, write_price_short,
    write_stamp,
};
use std::alloc::Global;

/// Answers a number that was read.
fn answer_number(
    alloc: Global,
    value: Option<u64>,
    answers: &mut Answers,
) -> Result<(), PlayFault> {
    match value {
        Some(value) => answers.say(&format!(in alloc; "{value}")?),
        None => answers.say("none"),
    }
}

/// Answers the parts of a stamp that was read.
fn answer_stamp(
    alloc: Global,
    stamp: Option<Stamp>,
    answers: &mut Answers,
) -> Result<(), PlayFault> {
    let Some(stamp) = stamp else {
        return answers.say("none");
    };
    let (year, month, day) = (stamp.year(), stamp.month(), stamp.day());
    let (hour, minute, second) = (stamp.hour(), stamp.minute(), stamp.second());
    let milli = stamp.milli();
    answers.say(&format!(in alloc; "{year} {month} {day} {hour} {minute} {second} {milli}")?)
}

/// Answers a name that was made of a text, and whether the text is one.
fn answer_comp_id(alloc: Global, text: &[u8], answers: &mut Answers) -> Result<(), PlayFault> {
    match (CompId::new(text), is_comp_id(text)) {
        (Some(id), true) => {
            let id = shown(alloc, id.as_bytes())?;
            answers.say(&id)
        }
        (None, false) => answers.say("none"),
        _ => answers.say("made and tested differently"),
    }
}

/// Reads a value of this form.
pub fn answer_value(
    alloc: Global,
    form: &str,
    text: &str,
    answers: &mut Answers,
) -> Result<(), PlayFault> {
    let bytes = bytes_of(alloc, text)?;
    match form {
        "number" => answer_number(alloc, read_number(&bytes), answers),
        "shares" => answer_number(alloc, read_shares(&bytes), answers),
        "price" => answer_number(alloc, read_price(&bytes), answers),
        "stamp" => answer_stamp(alloc, read_stamp(&bytes), answers),
        "comp_id" => answer_comp_id(alloc, &bytes, answers),
        "flag" => match read_flag(&bytes) {
            Some(true) => answers.say("yes"),
            Some(false) => answers.say("no"),
            None => answers.say("none"),
        },
        _ => Err(PlayFault::NotUnderstood),
    }
}

/// The year or the millisecond of a stamp.
fn long_part(word: &str) -> Result<u16, PlayFault> {
    u16::try_from(number(word)?).map_err(|_| PlayFault::NotUnderstood)
}

/// Another part of a stamp.
fn part(word: &str) -> Result<u8, PlayFault> {
    u8::try_from(number(word)?).map_err(|_| PlayFault::NotUnderstood)
}

/// The stamp of seven numbers.
fn stamp_in(alloc: Global, text: &str) -> Result<Stamp, PlayFault> {
    let words = words(alloc, text)?;
    let [year, month, day, hour, minute, second, milli] = words.as_slice() else {
        return Err(PlayFault::NotUnderstood);
    };
    Stamp::new(
        long_part(year)?,
        part(month)?,
        part(day)?,
        part(hour)?,
        part(minute)?,
        part(second)?,
        long_part(milli)?,
    )
    .ok_or(PlayFault::NotUnderstood)
}

/// Writes a value in this form.
pub fn write_value(
    alloc: Global,
    form: &str,
    text: &str,
    out: &mut Vec<u8>,
) -> Result<Result<(), WriteFault>, PlayFault> {
    match form {
        "number" => Ok(write_number(number(text)?, out)),
        "price_short" => Ok(write_price_short(number(text)?, out)),
        "price_four" => Ok(write_price_four(number(text)?, out)),
        "flag" => Ok(write_flag(flag(text)?, out)),
        "stamp" => Ok(write_stamp(&stamp_in(alloc, text)?, out)),
        _ => Err(PlayFault::NotUnderstood),
    }
}

/// The texts of the refusals.
pub fn answer_codes(alloc: Global, answers: &mut Answers) -> Result<(), PlayFault> {
    for fault in [
        WriteFault::BadValue(44),
        WriteFault::TooLong,
        WriteFault::OutOfMemory,
    ] {
        answers.say(&format!(in alloc; "writing {fault}")?)?;
    }
    for fault in [TagFault::Missing(11), TagFault::BadField(98)] {
        answers.say(&format!(in alloc; "reading {fault}")?)?;
    }
    Ok(())
}
