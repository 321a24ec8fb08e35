//! The line of a venue.

ghost use Rattle.std.specs.Prelude.{◌≡◌, ◌++◌, [], map, OnOk, IfOk, string_bytes};
ghost use Rattle.schedule.specs.World.{of_venue};
ghost use Rattle.schedule.specs.Printed.{phase_text, closed_text, venue_line};

use crate::leg_list::leg_list;
use crate::legs_by_state::legs_by_state;
use dialect::Dialect;
use leg::{Leg, LegId, VenueId};
use replay::World;
use session_core::Phase;
use std::alloc::{AllocError, Global};

/// Appends the line of a venue, if it is there.
pub fn write_venue<D: Dialect + Drop>(
    alloc: Global,
    text: &mut String,
    world: &World<D>,
    venue: VenueId,
) -> Result<(), AllocError>
    ensures { OnOk result (string_bytes text.new
        ≡ string_bytes text.old ++ of_venue world.now venue [] (venue_line world.now venue)) }
{
    let Some(phase) = world.phase(venue) else {
        return Ok(());
    };
    let legs = legs_by_state(alloc, world, venue)?;
    let accepted = leg_list(alloc, &ids_of(alloc, world.accepted(venue))?)?;
    let withdrawn = leg_list(alloc, &legs.withdrawn)?;
    let in_doubt = leg_list(alloc, &legs.in_doubt)?;
    let phase = phase_name(phase);
    let closed = closed_word(world.closed_at(venue));
    write!(
        text,
        "venue {venue} accepted {accepted} withdrawn {withdrawn} doubt {in_doubt} phase {phase} closed {closed}\n"
    )?;
    Ok(())
}

/// The numbers of legs.
fn ids_of(alloc: Global, legs: &[Leg]) -> Result<Vec<LegId>, AllocError>
    ensures { IfOk result (λ ids. ids.items ≡ map (λ leg. leg.id) legs.now) }
{
    let mut ids = Vec::with_capacity(alloc, legs.len())?;
    for leg in legs {
        ids.push(leg.id)?;
    }
    Ok(ids)
}

/// A phase in a word, as the line of a venue has it.
pub fn phase_name(phase: Phase) -> &'static str
    ensures { result.now ≡ phase_text phase }
{
    match phase {
        Phase::Down => "down",
        Phase::LoggingOn => "logon",
        Phase::Settling => "settling",
        Phase::Up => "up",
        Phase::Closing => "closing",
        Phase::LoggedOut => "logout",
        Phase::Closed => "closed",
    }
}

/// Whether the exchange took the session's Logout.
pub fn closed_word(closed_at: Option<usize>) -> &'static str
    ensures { result.now ≡ closed_text closed_at }
{
    match closed_at {
        Some(_) => "yes",
        None => "no",
    }
}
