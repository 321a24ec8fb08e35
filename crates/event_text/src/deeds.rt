//! What an event did.

ghost use Rattle.std.specs.Prelude.{◌≡◌, [], IfOk, OnOk};
ghost use Rattle.event_text.specs.Deeds.{placed_phrases, refused_phrases};
ghost use Rattle.event_text.specs.Says.{says};
ghost use Rattle.event_text.specs.Step.{IsStepText, SaidAt, or_idle, settled_now};

use crate::at_venue_text::{say_book, say_desk, say_exchange, say_session, say_written};
use crate::before::{AtVenue, Before};
use crate::idle_text::IdleText;
use crate::refusal_text::RefusalText;
use crate::say::say;
use crate::settled::Settled;
use dialect::Dialect;
use replay::{EventOutcome, Refusal, World};
use std::alloc::{AllocError, Global};

/// What an event did, in words. It compares the world before the event with that after it; `told` is what the event
/// told besides, and `settled` which legs were told as settled. The only refusal is out of memory.
pub fn print_deeds<D: Dialect + Drop>(
    alloc: Global,
    before: &Before,
    world: &World<D>,
    told: &EventOutcome,
    settled: &mut Settled,
) -> Result<Vec<u8>, AllocError>
    ensures text { IfOk result (λ text. IsStepText settled.old before.now world.now told.now text.items) }
    ensures settled { OnOk result (settled.new ≡ settled_now world.now settled.old before.now.at) }
{
    let mut text = Vec::new(alloc);
    say_placed(alloc, &mut text, told.placed)?;
    say_at(alloc, &mut text, before, world, told, settled)?;
    say_refused(alloc, &mut text, &told.refused)?;
    if text.is_empty() {
        return why_idle(alloc, before, world);
    }
    Ok(text)
}

/// Says the sweep that was placed, if one was.
fn say_placed(alloc: Global, text: &mut Vec<u8>, placed: Option<u64>) -> Result<(), AllocError>
    ensures { OnOk result (text.new.items ≡ says text.old.items (placed_phrases placed)) }
{
    match placed {
        Some(number) => say(
            text,
            format!(in alloc; "sweep {number} released")?.as_bytes(),
        ),
        None => Ok(()),
    }
}

/// Says what was done at the event's venue, if it is at one.
fn say_at<D: Dialect + Drop>(
    alloc: Global,
    text: &mut Vec<u8>,
    before: &Before,
    world: &World<D>,
    told: &EventOutcome,
    settled: &mut Settled,
) -> Result<(), AllocError>
    ensures said { OnOk result (SaidAt settled.old before.now world.now told.now text.old.items text.new.items
        before.now.at) }
    ensures settled { OnOk result (settled.new ≡ settled_now world.now settled.old before.now.at) }
{
    let Some(at) = &before.at else {
        return Ok(());
    };
    say_desk(alloc, text, at, world, told)?;
    settled.say(alloc, text, world, at.venue)?;
    say_book(alloc, text, before, at, world, told)?;
    say_exchange(alloc, text, at, world)?;
    say_written(alloc, text, at, world)?;
    say_session(alloc, text, at, world, told)
}

/// Says why a call was refused, if one was.
fn say_refused(
    alloc: Global,
    text: &mut Vec<u8>,
    refused: &Option<Refusal>,
) -> Result<(), AllocError>
    ensures { OnOk result (text.new.items ≡ says text.old.items (refused_phrases refused.now)) }
{
    match refused {
        Some(refusal) => {
            let refusal = RefusalText(refusal);
            say(text, format!(in alloc; "{refusal}")?.as_bytes())
        }
        None => Ok(()),
    }
}

/// Why nothing came of an event.
fn why_idle<D: Dialect + Drop>(
    alloc: Global,
    before: &Before,
    world: &World<D>,
) -> Result<Vec<u8>, AllocError>
    ensures { IfOk result (λ text. text.items ≡ or_idle before.now.at before.now.idle world.now []) }
{
    let (Some(AtVenue { venue, .. }), Some(idle)) = (before.at, before.idle) else {
        return Ok(String::from_str(alloc, "nothing")?.into_bytes());
    };
    let idle = IdleText {
        session: world.session_expects(venue),
        exchange: world.exchange_expects(venue),
        idle,
    };
    Ok(format!(in alloc; "{idle}")?.into_bytes())
}
