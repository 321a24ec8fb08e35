//! What became of the orders of a log, and of its sweeps.
ghost use Rattle.std.specs.Prelude.{◌≡◌, ◌++◌, length, IfOk, OnOk};
ghost use Rattle.log_legs.specs.Fate.{leg_said};
ghost use Rattle.log_legs.specs.LegLine.{leg_lines, legs_text, line_if, sums_if, sums_of, sweep_lines};

use crate::leg_line::{append_leg, append_sweep};
use crate::sweep_sums::SweepSums;
use crate::watch::Watch;
use std::alloc::{AllocError, Global};

/// Appends the line of the order at a place.
fn append_leg_at(
    alloc: Global,
    text: &mut Vec<u8>,
    watch: &Watch,
    place: usize,
) -> Result<(), AllocError>
    ensures { OnOk result (text.new.items ≡ text.old.items ++ line_if (leg_said watch.now place)) }
{
    match watch.leg(place) {
        Some(leg) => append_leg(alloc, text, &leg),
        None => Ok(()),
    }
}

/// Appends the lines of the orders.
#[tactic(auto, using(crate::proofs::OneMore::one_line_more))]
fn append_legs(alloc: Global, text: &mut Vec<u8>, watch: &Watch) -> Result<(), AllocError>
    ensures { OnOk result (text.new.items
        ≡ text.old.items ++ leg_lines watch.now (length watch.now.checker.ledger.orders)) }
{
    for place in 0..watch.leg_count() {
        append_leg_at(alloc, text, watch, place)?;
    }
    Ok(())
}

/// Adds the order at a place to the sums.
fn add_leg_at(sums: &mut SweepSums, watch: &Watch, place: usize) -> Result<(), AllocError>
    ensures { OnOk result (sums.new.by_number.entries ≡ sums_if (leg_said watch.now place) sums.old.by_number.entries) }
{
    match watch.leg(place) {
        Some(leg) => sums.add(&leg),
        None => Ok(()),
    }
}

/// The sums of the sweeps.
#[tactic(auto, using(crate::proofs::OneMore::one_sum_more))]
pub fn sums_of(alloc: Global, watch: &Watch) -> Result<SweepSums, AllocError>
    ensures { IfOk result (λ sums. sums.by_number.entries
        ≡ sums_of watch.now (length watch.now.checker.ledger.orders)) }
{
    let mut sums = SweepSums::new(alloc);
    for place in 0..watch.leg_count() {
        add_leg_at(&mut sums, watch, place)?;
    }
    Ok(sums)
}

/// Appends the lines of sweeps, by their numbers.
fn append_sweeps(alloc: Global, text: &mut Vec<u8>, sums: &SweepSums) -> Result<(), AllocError>
    ensures { OnOk result (text.new.items ≡ text.old.items ++ sweep_lines sums.now.by_number.entries) }
{
    for (number, sweep) in &sums.by_number {
        append_sweep(alloc, text, *number, sweep)?;
    }
    Ok(())
}

/// A line for each order, and then one for each sweep.
pub fn legs_text(alloc: Global, watch: &Watch) -> Result<Vec<u8>, AllocError>
    ensures { IfOk result (λ text. text.items ≡ legs_text watch.now) }
{
    let mut text = Vec::new(alloc);
    append_legs(alloc, &mut text, watch)?;
    let sums = sums_of(alloc, watch)?;
    append_sweeps(alloc, &mut text, &sums)?;
    Ok(text)
}
