//! The lines of a log, and the counts of them, as a case shows them.

use case_text::{Answers, PlayFault, bytes_of, shown};
use fix_tags::{Stamp, read_stamp};
use message_log::{Direction, LogQueue, log_line};
use std::alloc::Global;

fn direction_of(word: &str) -> Option<Direction> {
    match word {
        "sent" => Some(Direction::Sent),
        "received" => Some(Direction::Received),
        _ => None,
    }
}

/// The stamp, the direction and the message of `STAMP sent MESSAGE`.
fn parts_of(line: &str) -> Option<(Stamp, Direction, &str)> {
    let (stamp, rest) = line.split_once(' ')?;
    let (direction, message) = rest.split_once(' ')?;
    Some((
        read_stamp(stamp.as_bytes())?,
        direction_of(direction)?,
        message,
    ))
}

/// The line of a message. What it says is shown as it is, but for its end.
pub fn say_line(alloc: Global, line: &str, answers: &mut Answers) -> Result<(), PlayFault> {
    let Some((stamp, direction, message)) = parts_of(line) else {
        return Err(PlayFault::NotUnderstood);
    };
    let message = bytes_of(alloc, message)?;
    let line = log_line(alloc, &stamp, direction, &message)?;
    match String::from_utf8(line) {
        Ok(text) => answers.say(text.as_str().trim_end()),
        Err(_) => answers.say("no text"),
    }
}

/// The bytes that are handed over, if any.
pub fn say_taken(
    alloc: Global,
    batch: Option<Vec<u8>>,
    answers: &mut Answers,
) -> Result<(), PlayFault> {
    match batch {
        Some(lines) => {
            let text = shown(alloc, &lines)?;
            answers.say(text.as_str())
        }
        None => answers.say("nothing"),
    }
}

pub fn say_counts(alloc: Global, queue: &LogQueue, answers: &mut Answers) -> Result<(), PlayFault> {
    let kept = queue.kept();
    let lost = queue.lost();
    let waiting = queue.waiting();
    let put = queue.put_count();
    let text = format!(in alloc; "kept {kept} lost {lost} waiting {waiting} put {put}")?;
    answers.say(text.as_str())
}
