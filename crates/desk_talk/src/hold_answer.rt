//! What a person who halts or pauses is answered.

ghost use Rattle.std.specs.Prelude.{◌≡◌, Some};
ghost use Rattle.desk_talk.specs.HoldAnswer.{hold_json, hold_text};

use desk_floor::{Floor, TalkFault};
use desk_words::VenueName;
use exec_collector::Accounts;
use json_lines::Line;
use kept_link::Telling;
use release_lock::Run;
use std::alloc::{AllocError, Global};
use std::fmt;
use std::io::Write;
use std::sync::Wait;

/// What a person who halts or pauses is answered.
#[derive(Clone, Copy, Drop)]
pub(crate) enum HoldAnswer<'a> {
    Halted,
    Resumed,
    Paused(&'a VenueName),
    Unpaused(&'a VenueName),
    /// The worker of this venue may still be sending an order.
    Halting(&'a VenueName),
    Pausing(&'a VenueName),
    /// The file couldn't be written that says so to a desk which is started again.
    HaltedUnkept,
    ResumedUnkept,
}

impl<'a> fmt::Display for HoldAnswer<'a> {
    ghost output = { λ answer. Some (hold_text answer) };

    fn fmt<W: fmt::Write>(&self, f: &mut fmt::Formatter<W>) -> fmt::Result {
        match self {
            HoldAnswer::Halted => write!(f, "halted"),
            HoldAnswer::Resumed => write!(f, "resumed"),
            HoldAnswer::Paused(venue) => write!(f, "paused {venue}"),
            HoldAnswer::Unpaused(venue) => write!(f, "resumed {venue}"),
            HoldAnswer::Halting(venue) => write!(f, "halting: {venue} hasn't stopped yet"),
            HoldAnswer::Pausing(venue) => write!(f, "pausing: {venue} hasn't stopped yet"),
            HoldAnswer::HaltedUnkept => {
                write!(
                    f,
                    "halted, but a restart isn't: can't write the file halted"
                )
            }
            HoldAnswer::ResumedUnkept => {
                write!(
                    f,
                    "resumed, but a restart isn't: can't write the file halted"
                )
            }
        }
    }
}

impl<'a> Line for HoldAnswer<'a> {
    ghost json = { hold_json };

    fn json(&self, alloc: Global) -> Result<String, AllocError> {
        match self {
            HoldAnswer::Halted => String::from_str(alloc, "{\"halted\":true}"),
            HoldAnswer::Resumed => String::from_str(alloc, "{\"resumed\":true}"),
            HoldAnswer::Paused(venue) => format!(in alloc; "{{\"paused\":\"{venue}\"}}"),
            HoldAnswer::Unpaused(venue) => format!(in alloc; "{{\"resumed\":\"{venue}\"}}"),
            HoldAnswer::Halting(venue) => format!(in alloc; "{{\"halting\":\"{venue}\"}}"),
            HoldAnswer::Pausing(venue) => format!(in alloc; "{{\"pausing\":\"{venue}\"}}"),
            HoldAnswer::HaltedUnkept => {
                String::from_str(alloc, "{\"halted\":true,\"kept\":false}")
            }
            HoldAnswer::ResumedUnkept => {
                String::from_str(alloc, "{\"resumed\":true,\"kept\":false}")
            }
        }
    }
}

/// Says that a desk is halted whose day begins, as it was when an earlier life of the day ended.
pub fn say_halted<L: Run, M: Accounts, W: Write + Drop, J: Telling>(
    rt: &impl Wait,
    floor: &Floor<L, M, W, J>,
) -> Result<(), TalkFault> {
    if floor.lock.is_halted() {
        floor.voice.say(rt, &HoldAnswer::Halted)?;
    }
    Ok(())
}
