//! What an event did at its venue, in words.

ghost use Rattle.std.specs.Prelude.{◌≡◌, ◌+◌, ◌∷◌, [], IfOk, List, OnOk, drop, slice_get, string_bytes};
ghost use Rattle.venue_replay.specs.declared.frame.Frame.{Frame as LentFrame};
ghost use Rattle.event_text.specs.Deeds.{accepted_phrases, accepted_text, close_phrases, fate_text, gate_phrases, kept_phrases, left_phrases};
ghost use Rattle.event_text.specs.Deeds.{note_phrases, over_phrases, over_text, phase_phrases, withdrawn_phrases};
ghost use Rattle.event_text.specs.Says.{says, says_all};
ghost use Rattle.event_text.specs.Step.{AreFrames, book_deeds, desk_deeds, exchange_deeds, frame_deeds, session_deeds};

use crate::before::{AtVenue, Before};
use crate::frames_text::say_frames;
use crate::idle::gate_at;
use crate::note_text::{kept_text, noted_text};
use crate::refusal_text::ended_text;
use crate::say::say;
use dialect::{Dialect, Note, Report};
use leg::{Leg, LegId};
use replay::{EventOutcome, World};
use session_core::{Ended, Phase};
use share_ledger::{Applied, BookEntry};
use std::alloc::{AllocError, Global};
use sweep_release::Gate;
use world_text::phase_name;

/// Says the gate, where it moved.
fn say_gate(text: &mut Vec<u8>, before: Gate, now: Gate) -> Result<(), AllocError>
    ensures { OnOk result (text.new.items ≡ says text.old.items (gate_phrases before now)) }
{
    match (before, now) {
        (Gate::Up, Gate::Up) => Ok(()),
        (Gate::Down, Gate::Down) => Ok(()),
        (Gate::Shut, Gate::Shut) => Ok(()),
        (_, Gate::Up) => say(text, b"gate up"),
        (_, Gate::Down) => say(text, b"gate down"),
        (_, Gate::Shut) => say(text, b"gate shut"),
    }
}

/// What became of a leg that left the desk.
fn fate_of(gate: Gate, is_refused: bool) -> &'static str
    ensures { result.now ≡ fate_text gate is_refused }
{
    match gate {
        Gate::Up => { if is_refused { " not sent" } else { " sent" } }
        Gate::Down => " dropped",
        Gate::Shut => " dropped",
    }
}

/// Says the leg that left the desk, if one did.
fn say_left(
    alloc: Global,
    text: &mut Vec<u8>,
    gate: Gate,
    is_refused: bool,
    leg: Option<LegId>,
    has_left: bool,
) -> Result<(), AllocError>
    ensures { OnOk result (text.new.items ≡ says text.old.items (left_phrases gate is_refused leg has_left)) }
{
    if !has_left {
        return Ok(());
    }
    let Some(leg) = leg else {
        return Ok(());
    };
    let fate = fate_of(gate, is_refused);
    say(text, format!(in alloc; "{leg}{fate}")?.as_bytes())
}

/// Says what was done at the desk.
pub(crate) fn say_desk<D: Dialect + Drop>(
    alloc: Global,
    text: &mut Vec<u8>,
    at: &AtVenue,
    world: &World<D>,
    told: &EventOutcome,
) -> Result<(), AllocError>
    ensures { OnOk result (text.new.items ≡ says_all text.old.items (desk_deeds at.now world.now told.now)) }
{
    say_gate(text, at.gate, gate_at(world.desk(), at.venue))?;
    let has_left = at.left < world.desk().left(at.venue);
    say_left(
        alloc,
        text,
        at.gate,
        told.refused.is_some(),
        at.leg_due,
        has_left,
    )
}

/// Says a leg that the book has as withdrawn, if an entry is one.
fn say_withdrawn(alloc: Global, text: &mut Vec<u8>, entry: &BookEntry) -> Result<(), AllocError>
    ensures { OnOk result (text.new.items ≡ says text.old.items (withdrawn_phrases (entry.now ∷ []))) }
{
    match entry {
        BookEntry::Withdrawn(leg) => say(text, format!(in alloc; "{leg} withdrawn")?.as_bytes()),
        _ => Ok(()),
    }
}

/// Says the legs that the book has as withdrawn, behind so many entries.
fn say_entries(
    alloc: Global,
    text: &mut Vec<u8>,
    before: usize,
    entries: &[BookEntry],
) -> Result<(), AllocError>
    ensures { OnOk result (text.new.items ≡ says text.old.items (withdrawn_phrases (drop before entries.now))) }
{
    for place in before..entries.len() {
        say_withdrawn(alloc, text, &entries[place])?;
    }
    Ok(())
}

/// Says the note of a place among those that the book was given, with its answer.
fn say_note(
    alloc: Global,
    text: &mut Vec<u8>,
    notes: &[Note],
    place: usize,
    answer: Option<Applied>,
) -> Result<(), AllocError>
    ensures { OnOk result (text.new.items ≡ says text.old.items (note_phrases (slice_get notes.now place) answer)) }
{
    let Some(note) = notes.get(place) else {
        return Ok(());
    };
    match answer {
        Some(answer) => say(text, &noted_text(alloc, note, answer)?),
        None => Ok(()),
    }
}

/// Says what was written in the book.
pub(crate) fn say_book<D: Dialect + Drop>(
    alloc: Global,
    text: &mut Vec<u8>,
    before: &Before,
    at: &AtVenue,
    world: &World<D>,
    told: &EventOutcome,
) -> Result<(), AllocError>
    ensures { OnOk result (text.new.items
        ≡ says_all text.old.items (book_deeds before.now at.now world.now told.now)) }
{
    say_entries(alloc, text, before.book_entries, world.book().history())?;
    say_note(alloc, text, world.given(at.venue), at.given, told.answer)
}

/// An order that the exchange accepted, with its number.
fn accepted_text(alloc: Global, leg: LegId, number: usize) -> Result<String, AllocError>
    ensures { IfOk result (λ text. string_bytes text ≡ accepted_text leg number) }
{
    format!(in alloc; "{leg} accepted as order {number}")
}

/// Says the order of a place among those that the exchange accepted, if there is one.
fn say_accepted(
    alloc: Global,
    text: &mut Vec<u8>,
    orders: &[Leg],
    place: usize,
) -> Result<(), AllocError>
    ensures { OnOk result (text.new.items
        ≡ says text.old.items (accepted_phrases (slice_get orders.now place) place)) }
{
    match orders.get(place) {
        Some(order) => {
            let leg = order.id;
            let number = place + 1;
            say(
                text,
                format!(in alloc; "{leg} accepted as order {number}")?.as_bytes(),
            )
        }
        None => Ok(()),
    }
}

/// Says the report of a place among those that the exchange made, where it didn't write it.
fn say_kept(
    alloc: Global,
    text: &mut Vec<u8>,
    reports: &[Report],
    place: usize,
    is_unwritten: bool,
) -> Result<(), AllocError>
    ensures { OnOk result (text.new.items
        ≡ says text.old.items (kept_phrases (slice_get reports.now place) is_unwritten)) }
{
    if !is_unwritten {
        return Ok(());
    }
    match reports.get(place) {
        Some(report) => say(text, &kept_text(alloc, report)?),
        None => Ok(()),
    }
}

/// Says that the exchange took the session's Logout.
fn say_close(text: &mut Vec<u8>, closes: bool) -> Result<(), AllocError>
    ensures { OnOk result (text.new.items ≡ says text.old.items (close_phrases closes)) }
{
    if closes {
        say(text, b"exchange closed")
    } else {
        Ok(())
    }
}

/// Says what the exchange did.
pub(crate) fn say_exchange<D: Dialect + Drop>(
    alloc: Global,
    text: &mut Vec<u8>,
    at: &AtVenue,
    world: &World<D>,
) -> Result<(), AllocError>
    ensures { OnOk result (text.new.items ≡ says_all text.old.items (exchange_deeds at.now world.now)) }
{
    say_accepted(alloc, text, world.accepted(at.venue), at.accepted)?;
    let is_unwritten = world.frames_from(at.venue).len() == at.frames_from;
    say_kept(alloc, text, world.made(at.venue), at.made, is_unwritten)?;
    say_close(text, world.closed_at(at.venue).is_some() && !at.is_closed)
}

/// Says the frames that were written.
pub(crate) fn say_written<D: Dialect + Drop>(
    alloc: Global,
    text: &mut Vec<u8>,
    at: &AtVenue,
    world: &World<D>,
) -> Result<(), AllocError>
    ensures { OnOk result ((to : List LentFrame) × (from : List LentFrame)
        × AreFrames world.now at.now.venue (λ venue. venue.to_exchange) to
        × AreFrames world.now at.now.venue (λ venue. venue.from_exchange) from
        × (text.new.items ≡ says_all text.old.items (frame_deeds at.now to from))) }
{
    say_frames(
        alloc,
        text,
        "to",
        at.venue,
        at.frames_to,
        world.frames_to(at.venue),
    )?;
    say_frames(
        alloc,
        text,
        "from",
        at.venue,
        at.frames_from,
        world.frames_from(at.venue),
    )
}

/// A connection that is over, and why the session ended it, if it did.
fn over_text(alloc: Global, connection: u64, ended: Option<Ended>) -> Result<String, AllocError>
    ensures { IfOk result (λ text. string_bytes text ≡ over_text connection ended) }
{
    match ended {
        Some(ended) => {
            let why = ended_text(ended);
            format!(in alloc; "connection {connection} ended: {why}")
        }
        None => format!(in alloc; "connection {connection} over"),
    }
}

/// Says the connection that is over, and why the session ended it, if it did.
fn say_over(
    alloc: Global,
    text: &mut Vec<u8>,
    before: Option<Phase>,
    now: Option<Phase>,
    connection: u64,
    ended: Option<Ended>,
) -> Result<(), AllocError>
    ensures { OnOk result (text.new.items ≡ says text.old.items (over_phrases before now connection ended)) }
{
    let (Some(before), Some(now)) = (before, now) else {
        return Ok(());
    };
    if !before.is_connected() || now.is_connected() {
        return Ok(());
    }
    say(text, over_text(alloc, connection, ended)?.as_bytes())
}

/// Says the session's phase, where it is another one.
fn say_phase(
    alloc: Global,
    text: &mut Vec<u8>,
    before: Option<Phase>,
    now: Option<Phase>,
) -> Result<(), AllocError>
    ensures { OnOk result (text.new.items ≡ says text.old.items (phase_phrases before now)) }
{
    let (Some(before), Some(now)) = (before, now) else {
        return Ok(());
    };
    let name = phase_name(now);
    if phase_name(before) == name {
        return Ok(());
    }
    say(text, format!(in alloc; "session {name}")?.as_bytes())
}

/// Says what became of the session.
pub(crate) fn say_session<D: Dialect + Drop>(
    alloc: Global,
    text: &mut Vec<u8>,
    at: &AtVenue,
    world: &World<D>,
    told: &EventOutcome,
) -> Result<(), AllocError>
    ensures { OnOk result (text.new.items ≡ says_all text.old.items (session_deeds at.now world.now told.now)) }
{
    let now = world.phase(at.venue);
    say_over(
        alloc,
        text,
        at.phase,
        now,
        world.connection(at.venue),
        told.ended,
    )?;
    say_phase(alloc, text, at.phase, now)
}
