//! Why a crash can't be, in words.

use dialect::AnyDialect;
use leg::VenueId;
use replay::{Day, LossFault};
use script::Loss;
use std::alloc::{AllocError, Global};

/// Why a crash can't lose this, and what to do.
pub fn why_impossible(
    alloc: Global,
    fault: &LossFault,
    loss: &Loss,
    day: &Day<AnyDialect>,
) -> Result<String, AllocError> {
    let sweeps = loss.sweeps();
    match *fault {
        LossFault::Sweeps { placed } => {
            format!(in alloc; "lost sweeps {sweeps}: only {placed} were placed")
        }
        LossFault::Journal { venue, lines } => {
            let lost = lost_of(loss, venue);
            format!(in alloc;
                "lost lines {lost} of venue {venue}: its journal has {lines}, and the first is never lost"
            )
        }
        LossFault::Wire { venue, frame } => {
            let lost = lost_of(loss, venue);
            format!(in alloc;
                "lost lines {lost} of venue {venue}: by the wire rule the line of frame {frame}, which came to the \
exchange, is on the disk; lose fewer lines"
            )
        }
        LossFault::Release { venue, left } => format!(in alloc;
            "lost sweeps {sweeps}: by the release rule the sweeps of the legs that had left the desk are on the disk, \
{left} at venue {venue}; lose fewer sweeps, or more lines"
        ),
        LossFault::Withdrawal { venue, ordinal } => why_withdrawn(alloc, loss, day, venue, ordinal),
    }
}

/// Why the line that withdraws the leg of this ordinal isn't lost.
fn why_withdrawn(
    alloc: Global,
    loss: &Loss,
    day: &Day<AnyDialect>,
    venue: VenueId,
    ordinal: u64,
) -> Result<String, AllocError> {
    let lost = lost_of(loss, venue);
    let place = ordinal.saturating_sub(1) as usize;
    match day.world().released(venue).get(place) {
        Some(leg) => {
            let id = leg.id;
            format!(in alloc;
                "lost lines {lost} of venue {venue}: by the withdrawal rule the line that withdraws {id} is on the \
disk; lose fewer lines"
            )
        }
        None => String::from_str(alloc, "lose fewer lines"),
    }
}

/// How many lines a crash loses of a venue's journal.
fn lost_of(loss: &Loss, venue: VenueId) -> u64 {
    match loss.lines().get(usize::from(venue.number())) {
        Some(count) => *count,
        None => 0,
    }
}
