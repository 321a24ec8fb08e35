//! The line of a sweep.

ghost use Rattle.std.specs.Prelude.{◌≡◌, ◌≤◌, ◌++◌, [], length, OnOk, string_bytes};
ghost use Rattle.std.specs.Option.{option_map_or};
ghost use Rattle.schedule.specs.Printed.{parts_text, sweep_line};
ghost use Rattle.world_text.specs.SweepLine.{shares_line};

use dialect::Dialect;
use leg::{Routed, Totals};
use replay::World;
use share_ledger::shares_of;
use std::alloc::AllocError;

/// Appends the line of the sweep of a number, with these legs.
pub fn write_sweep<D: Dialect + Drop>(
    text: &mut String,
    world: &World<D>,
    number: u64,
    legs: &[Routed],
) -> Result<(), AllocError>
    requires { length legs.now ≤ 32 }
    ensures { OnOk result (string_bytes text.new ≡ string_bytes text.old ++ sweep_line world.now number legs.now) }
{
    write_sweep_line(text, number, shares_of(legs), world.totals(number))
}

/// Appends the line of a sweep of this number and so many shares, as `sweep 1 legs 10 filled 6 busted 0 cancelled 4
/// withdrawn 0 open 0`; where the parts of the shares aren't known it ends behind their sum. The only refusal is want
/// of memory.
pub fn write_sweep_line(
    text: &mut String,
    number: u64,
    shares: u64,
    parts: Option<Totals>,
) -> Result<(), AllocError>
    ensures { OnOk result (string_bytes text.new ≡ string_bytes text.old ++ shares_line number shares parts) }
{
    write!(text, "sweep {number} legs {shares}")?;
    write_parts(text, parts)?;
    text.push_str("\n")?;
    Ok(())
}

/// Appends the parts of a sweep's shares, if it is in the book.
fn write_parts(text: &mut String, parts: Option<Totals>) -> Result<(), AllocError>
    ensures { OnOk result (string_bytes text.new ≡ string_bytes text.old ++ option_map_or parts_text parts []) }
{
    match parts {
        Some(parts) => write_known_parts(text, parts),
        None => Ok(()),
    }
}

/// Appends the parts of shares.
pub fn write_known_parts(text: &mut String, parts: Totals) -> Result<(), AllocError>
    ensures { OnOk result (string_bytes text.new ≡ string_bytes text.old ++ parts_text parts) }
{
    let filled = parts.filled;
    let busted = parts.busted;
    let cancelled = parts.cancelled;
    let withdrawn = parts.withdrawn;
    let still_open = parts.still_open;
    write!(
        text,
        " filled {filled} busted {busted} cancelled {cancelled} withdrawn {withdrawn} open {still_open}"
    )?;
    Ok(())
}
