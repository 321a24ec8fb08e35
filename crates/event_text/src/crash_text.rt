//! What a crash did, in words.

ghost use Rattle.std.specs.Prelude.{◌≡◌, IfOk, OnOk};
ghost use Rattle.event_text.specs.Crash.{IsCrashText, change_phrases};
ghost use Rattle.event_text.specs.Says.{says};

use crate::before_crash::{BeforeCrash, VenueBeforeCrash, sweep_count};
use crate::journal_line::JournalLine;
use crate::journal_lines::JournalLines;
use crate::say::say;
use dialect::Dialect;
use leg::{Leg, LegState, VenueId};
use replay::World;
use std::alloc::{AllocError, Global};

/// What a crash did, in words: which sweeps, lines and frames were lost, so many lines of each venue; and what the
/// start made of the rest. `lines` are the journals before it. The only refusal is out of memory.
pub fn print_crash<D: Dialect + Drop>(
    alloc: Global,
    before: &BeforeCrash,
    world: &World<D>,
    lines: &JournalLines,
    lost: &[u64],
) -> Result<Vec<u8>, AllocError>
    ensures { IfOk result (λ text. IsCrashText text.items) }
{
    let mut text = Vec::new(alloc);
    say_sweeps(alloc, &mut text, before.sweeps, sweep_count(world))?;
    for place in 0..world.venues() {
        let (Ok(venue), Some(at)) = (VenueId::new(place as u8), before.venues.get(place)) else {
            break;
        };
        let count = match lost.get(place) {
            Some(count) => *count,
            None => 0,
        };
        say_lines(alloc, &mut text, venue, lines.last(venue, count))?;
        say_frames(
            alloc,
            &mut text,
            venue,
            at.frames_to,
            world.frames_to(venue).len(),
        )?;
        say_changes(alloc, &mut text, at, world, venue)?;
    }
    say(&mut text, b"started again")?;
    Ok(text)
}

/// Says the sweeps that were lost.
fn say_sweeps(
    alloc: Global,
    text: &mut Vec<u8>,
    before: usize,
    now: usize,
) -> Result<(), AllocError> {
    for place in now..before {
        let number = place + 1;
        say(text, format!(in alloc; "sweep {number} lost")?.as_bytes())?;
    }
    Ok(())
}

/// Says the lines of a venue's journal that were lost.
fn say_lines(
    alloc: Global,
    text: &mut Vec<u8>,
    venue: VenueId,
    lines: &[JournalLine],
) -> Result<(), AllocError> {
    for line in lines {
        say(
            text,
            format!(in alloc; "venue {venue} lost {line}")?.as_bytes(),
        )?;
    }
    Ok(())
}

/// Says the frames to an exchange that were lost with their lines.
fn say_frames(
    alloc: Global,
    text: &mut Vec<u8>,
    venue: VenueId,
    before: usize,
    now: usize,
) -> Result<(), AllocError> {
    for place in now..before {
        let number = place + 1;
        say(
            text,
            format!(in alloc; "to {venue} {number} lost")?.as_bytes(),
        )?;
    }
    Ok(())
}

/// Says the legs of a venue that the start withdrew, and those that are in doubt again.
fn say_changes<D: Dialect + Drop>(
    alloc: Global,
    text: &mut Vec<u8>,
    before: &VenueBeforeCrash,
    world: &World<D>,
    venue: VenueId,
) -> Result<(), AllocError> {
    for (place, leg) in world.released(venue).iter().enumerate() {
        let was = match before.states.get(place) {
            Some(state) => *state,
            None => None,
        };
        say_change(alloc, text, was, world.state(venue, place as u64 + 1), leg)?;
    }
    Ok(())
}

/// Says a leg that the start withdrew, or that is in doubt again.
fn say_change(
    alloc: Global,
    text: &mut Vec<u8>,
    before: Option<LegState>,
    now: Option<LegState>,
    leg: &Leg,
) -> Result<(), AllocError>
    ensures { OnOk result (text.new.items ≡ says text.old.items (change_phrases before now leg.now)) }
{
    let id = leg.id;
    match (before, now) {
        (Some(LegState::Withdrawn), _) => Ok(()),
        (_, Some(LegState::Withdrawn)) => {
            say(text, format!(in alloc; "{id} withdrawn")?.as_bytes())
        }
        (Some(LegState::Taken), Some(LegState::Doubt)) => {
            say(text, format!(in alloc; "{id} in doubt again")?.as_bytes())
        }
        _ => Ok(()),
    }
}
