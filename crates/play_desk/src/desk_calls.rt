//! The calls of a desk, and what it answers.

ghost use Rattle.std.specs.Prelude.{◌<◌, length, IfOk};

use crate::sweep_text::any_venue;
use case_text::{Answers, PlayFault, number};
use leg::{PlacedLeg, Sweep, VenueId};
use std::alloc::Global;
use sweep_release::{Desk, Gate, GateFault, Receipt, ReleaseFault};

/// A desk of so many venues.
pub fn new_desk(alloc: Global, venues: &str) -> Result<Desk, PlayFault> {
    let venues = number(venues)?;
    if venues < 1 || venues > 16 {
        return Err(PlayFault::NotUnderstood);
    }
    Desk::new(alloc, venues as u8).map_err(|_| PlayFault::OutOfMemory)
}

/// A venue that the desk has.
fn known(desk: &Desk, word: &str) -> Result<VenueId, PlayFault>
    ensures { IfOk result (λ venue. venue < length desk.now.desk.venues) }
{
    let number = number(word)?;
    if number >= desk.venues() as u64 {
        return Err(PlayFault::NotUnderstood);
    }
    match VenueId::new(number as u8) {
        Ok(venue) => Ok(venue),
        Err(_) => Err(PlayFault::NotUnderstood),
    }
}

fn gate_name(gate: Gate) -> &'static str {
    match gate {
        Gate::Up => "up",
        Gate::Down => "down",
        Gate::Shut => "shut",
    }
}

fn tell_refused(
    alloc: Global,
    fault: ReleaseFault,
    answers: &mut Answers,
) -> Result<(), PlayFault> {
    let text = format!(in alloc; "refused {fault}")?;
    answers.say(&text)
}

fn tell_gate(
    alloc: Global,
    answer: Result<(), GateFault>,
    answers: &mut Answers,
) -> Result<(), PlayFault> {
    match answer {
        Ok(()) => Ok(()),
        Err(fault) => {
            let text = format!(in alloc; "refused {fault}")?;
            answers.say(&text)
        }
    }
}

fn tell_leg(
    alloc: Global,
    placed: Option<PlacedLeg>,
    answers: &mut Answers,
) -> Result<(), PlayFault> {
    match placed {
        Some(placed) => {
            let ordinal = placed.ordinal;
            let leg = placed.leg;
            let text = format!(in alloc; "leg {ordinal} {leg}")?;
            answers.say(&text)
        }
        None => answers.say("no leg"),
    }
}

/// Tells what a release gave.
pub fn tell_receipt(
    alloc: Global,
    answer: Result<Receipt, ReleaseFault>,
    answers: &mut Answers,
) -> Result<(), PlayFault> {
    match answer {
        Ok(Receipt { number, shares }) => {
            let text = format!(in alloc; "sweep {number}, {shares} shares")?;
            answers.say(&text)
        }
        Err(fault) => tell_refused(alloc, fault, answers),
    }
}

/// Whether a release of the sweep would be refused.
pub fn ready(
    alloc: Global,
    desk: &mut Desk,
    sweep: &Sweep,
    answers: &mut Answers,
) -> Result<(), PlayFault> {
    match desk.ready(sweep) {
        Ok(()) => answers.say("ready"),
        Err(fault) => tell_refused(alloc, fault, answers),
    }
}

fn tell_venue(
    alloc: Global,
    desk: &Desk,
    word: &str,
    answers: &mut Answers,
) -> Result<(), PlayFault> {
    let venue = known(desk, word)?;
    let gate = gate_name(desk.gate(venue));
    let placed = desk.placed(venue);
    let left = desk.left(venue);
    let text = format!(in alloc; "{gate}, {placed} placed, {left} left")?;
    answers.say(&text)
}

fn tell_released(
    alloc: Global,
    desk: &Desk,
    word: &str,
    answers: &mut Answers,
) -> Result<(), PlayFault> {
    for leg in desk.released(any_venue(word)?) {
        let text = format!(in alloc; "{leg}")?;
        answers.say(&text)?;
    }
    Ok(())
}

/// Drops the next leg of a venue, which is to have this ordinal. `false` where there is none.
fn drop_at(
    alloc: Global,
    desk: &mut Desk,
    word: &str,
    ordinal: u64,
    answers: &mut Answers,
) -> Result<bool, PlayFault> {
    let venue = known(desk, word)?;
    match desk.drop_next(venue) {
        Some(placed) if placed.ordinal == ordinal => Ok(true),
        other => {
            tell_leg(alloc, other, answers)?;
            Ok(false)
        }
    }
}

/// Drops all legs that are placed at a venue. Their ordinals are told, which follow one another; the first leg that has
/// another, and a leg that isn't there, is told, and ends it.
fn drain(
    alloc: Global,
    desk: &mut Desk,
    word: &str,
    answers: &mut Answers,
) -> Result<(), PlayFault> {
    let venue = known(desk, word)?;
    let left = desk.left(venue) as u64;
    let placed = desk.placed(venue) as u64;
    for at in 0..placed {
        let ordinal = left.saturating_add(at).saturating_add(1);
        if !drop_at(alloc, desk, word, ordinal, answers)? {
            return Ok(());
        }
    }
    let first = left.saturating_add(1);
    let last = left.saturating_add(placed);
    let text = format!(in alloc; "legs {first} to {last}")?;
    answers.say(&text)
}

/// Puts a gate, as the first word says.
fn turn(
    alloc: Global,
    desk: &mut Desk,
    word: &str,
    gate: Gate,
    answers: &mut Answers,
) -> Result<(), PlayFault> {
    let venue = known(desk, word)?;
    match gate {
        Gate::Up => tell_gate(alloc, desk.gate_up(venue), answers),
        Gate::Down => {
            desk.gate_down(venue);
            Ok(())
        }
        Gate::Shut => {
            desk.shut(venue);
            Ok(())
        }
    }
}

/// The next leg of a venue stays, is taken or is dropped.
fn leg(
    alloc: Global,
    desk: &mut Desk,
    verb: &str,
    word: &str,
    answers: &mut Answers,
) -> Result<(), PlayFault> {
    let venue = known(desk, word)?;
    let placed = match verb {
        "next" => desk.next_leg(venue),
        "take" => desk.take(venue),
        _ => desk.drop_next(venue),
    };
    tell_leg(alloc, placed, answers)
}

/// A call of these words, but for releases.
pub fn call(
    alloc: Global,
    desk: &mut Desk,
    words: &[&str],
    answers: &mut Answers,
) -> Result<(), PlayFault> {
    match words {
        ["up", venue] => turn(alloc, desk, venue, Gate::Up, answers),
        ["down", venue] => turn(alloc, desk, venue, Gate::Down, answers),
        ["shut", venue] => turn(alloc, desk, venue, Gate::Shut, answers),
        [verb @ ("next" | "take" | "drop"), venue] => leg(alloc, desk, verb, venue, answers),
        ["drain", venue] => drain(alloc, desk, venue, answers),
        ["gate", venue] => tell_venue(alloc, desk, venue, answers),
        ["released", venue] => tell_released(alloc, desk, venue, answers),
        ["shares"] => {
            let shares = desk.placed_shares();
            let text = format!(in alloc; "{shares} shares")?;
            answers.say(&text)
        }
        _ => Err(PlayFault::NotUnderstood),
    }
}
