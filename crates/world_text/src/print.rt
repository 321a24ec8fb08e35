//! A world is printed.

ghost use Rattle.std.specs.Prelude.{◌≡◌, ◌++◌, OnOk, IfOk, string_bytes};
ghost use Rattle.schedule.specs.Printed.{venue_lines, sweep_lines, printed};

use crate::sweep_text::write_sweep;
use crate::venue_text::write_venue;
use dialect::Dialect;
use leg::VenueId;
use replay::World;
use std::alloc::{AllocError, Global};
use sweep_release::DeskEntry;

/// The text of a world: for each venue a line of its accepted, withdrawn and doubtful legs, its phase and whether its
/// exchange took the session's Logout; and for each sweep a line of its shares. The only refusal is out of memory.
pub fn print_world<D: Dialect + Drop>(
    alloc: Global,
    world: &World<D>,
) -> Result<Vec<u8>, AllocError>
    ensures { IfOk result (λ text. text.items ≡ printed world.now) }
{
    let mut text = String::new(alloc);
    write_venues(alloc, &mut text, world)?;
    write_sweeps(&mut text, world)?;
    Ok(text.into_bytes())
}

/// Appends the lines of the venues.
fn write_venues<D: Dialect + Drop>(
    alloc: Global,
    text: &mut String,
    world: &World<D>,
) -> Result<(), AllocError>
    ensures { OnOk result (string_bytes text.new ≡ string_bytes text.old ++ venue_lines world.now 0 world.now.venues) }
{
    for number in 0..world.venues() {
        let venue = VenueId::new(number as u8).unwrap();
        write_venue(alloc, text, world, venue)?;
    }
    Ok(())
}

/// Appends the lines of the sweeps, in the order of their numbers.
fn write_sweeps<D: Dialect + Drop>(text: &mut String, world: &World<D>) -> Result<(), AllocError>
    ensures { OnOk result (string_bytes text.new
        ≡ string_bytes text.old ++ sweep_lines world.now 1 world.now.desk.sweeps) }
{
    let history = world.desk().history();
    let mut number = 0;
    for entry in history {
        if let DeskEntry::Released(sweep) = entry {
            number += 1;
            write_sweep(text, world, number, sweep.legs.as_slice())?;
        }
    }
    Ok(())
}
