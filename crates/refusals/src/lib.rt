//! A day of one venue, on which each call that is refused memory is made again.
//!
//! `tell` writes how both ends, the desk and the book stand after each turn of the day. `checks/built/refusals` runs it
//! with its first growth of memory refused, then its second, and so on: it must always write the same.
#![tactic(auto)]

mod day;
mod delivery;
mod desk_calls;
mod exchange_calls;
mod frame;
mod session_calls;
mod standing;
mod turn;

use crate::day::Day;
use crate::turn::DAY;
use std::alloc::Global;
use std::io::Write;
use trial::{TrialFault, room_for_text};

/// The most bytes that the day writes.
const MAX_TEXT: usize = 65_536;

/// The day, turn by turn, as lines.
fn told(alloc: Global) -> Result<String, TrialFault> {
    let mut text = room_for_text(alloc, MAX_TEXT)?;
    let mut day = Day::begin(alloc)?;
    for turn in &DAY {
        day.take_turn(turn)?;
        day.tell(turn, &mut text)?;
    }
    Ok(text)
}

/// Tells the day.
pub fn tell<W: Write>(alloc: Global, out: &mut W) -> Result<(), TrialFault> {
    out.write_all(told(alloc)?.as_bytes())?;
    Ok(())
}
