//! The sums of a world are printed.

ghost use Rattle.std.specs.Prelude.{◌≡◌, ◌++◌, [], OnOk, IfOk, string_bytes};
ghost use Rattle.schedule.specs.World.{of_venue};
ghost use Rattle.world_text.specs.Summary.{sums_line, summed, venue_sums, venues_sums};

use crate::legs_by_state::legs_by_state;
use crate::sums::Sums;
use crate::sweep_text::write_known_parts;
use crate::venue_text::{closed_word, phase_name};
use dialect::Dialect;
use leg::VenueId;
use replay::World;
use std::alloc::{AllocError, Global};

/// The sums of a world: for each venue a line with how many legs its exchange accepted, and how many were withdrawn and
/// are in doubt, its phase and whether its exchange took the session's Logout; and a line with what became of the
/// shares of all sweeps. The only refusal is out of memory.
pub fn print_summary<D: Dialect + Drop>(
    alloc: Global,
    world: &World<D>,
) -> Result<Vec<u8>, AllocError>
    ensures { IfOk result (λ text. text.items ≡ summed world.now) }
{
    let mut text = String::new(alloc);
    write_venues_sums(alloc, &mut text, world)?;
    write_sums(&mut text, Sums::of(world))?;
    Ok(text.into_bytes())
}

/// Appends the lines of the venues.
fn write_venues_sums<D: Dialect + Drop>(
    alloc: Global,
    text: &mut String,
    world: &World<D>,
) -> Result<(), AllocError>
    ensures { OnOk result (string_bytes text.new ≡ string_bytes text.old ++ venues_sums world.now 0 world.now.venues) }
{
    for number in 0..world.venues() {
        let venue = VenueId::new(number as u8).unwrap();
        write_venue_sums(alloc, text, world, venue)?;
    }
    Ok(())
}

/// Appends the line of a venue, if it is there.
fn write_venue_sums<D: Dialect + Drop>(
    alloc: Global,
    text: &mut String,
    world: &World<D>,
    venue: VenueId,
) -> Result<(), AllocError>
    ensures { OnOk result (string_bytes text.new
        ≡ string_bytes text.old ++ of_venue world.now venue [] (venue_sums world.now venue)) }
{
    let Some(phase) = world.phase(venue) else {
        return Ok(());
    };
    let legs = legs_by_state(alloc, world, venue)?;
    let accepted = world.accepted(venue).len();
    let withdrawn = legs.withdrawn.len();
    let in_doubt = legs.in_doubt.len();
    let phase = phase_name(phase);
    let closed = closed_word(world.closed_at(venue));
    write!(
        text,
        "venue {venue} accepted {accepted} withdrawn {withdrawn} doubt {in_doubt} phase {phase} closed {closed}\n"
    )?;
    Ok(())
}

/// Appends the line of the sums.
fn write_sums(text: &mut String, sums: Sums) -> Result<(), AllocError>
    ensures { OnOk result (string_bytes text.new ≡ string_bytes text.old ++ sums_line sums) }
{
    let sweeps = sums.sweeps;
    let shares = sums.shares;
    write!(text, "sweeps {sweeps} legs {shares}")?;
    write_known_parts(text, sums.parts)?;
    text.push_str("\n")?;
    Ok(())
}
