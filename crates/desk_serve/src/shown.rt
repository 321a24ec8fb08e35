//! What a day shows: some of its sweeps, the legs of one, and its venues.

ghost use Rattle.std.specs.Prelude.{◌≡◌, filter_map, length, IfOk};
ghost use Rattle.desk_serve.specs.Shown.{AreAll, AreBehind, row_of};

use crate::rows::{leg_row, venue_row};
use clock::Clock;
use day_sweeps::paid_sweep_now;
use desk_floor::{Floor, LegStanding};
use desk_json::{LegRow, VenueRow};
use desk_news::PaidSweep;
use desk_words::VenueName;
use exec_collector::{Accounts, Collector};
use kept_link::Telling;
use release_lock::Run;
use std::alloc::{AllocError, Global};
use std::io::Write;
use std::sync::Wait;

/// The sweeps behind a number, at most so many. It may wait for the book's lock, once for each. The only refusal is out
/// of memory.
pub(crate) fn sweeps_behind<M: Accounts>(
    rt: &impl Wait,
    alloc: Global,
    collector: &Collector<M>,
    after: u64,
    most: u64,
) -> Result<Vec<PaidSweep>, AllocError>
    ensures { IfOk result (λ sweeps. AreBehind after most sweeps.items) }
{
    let mut sweeps = Vec::new(alloc);
    for before in after..after.saturating_add(most) {
        match paid_sweep_now(rt, collector, before + 1) {
            Some(sweep) => sweeps.push(sweep)?,
            None => return Ok(sweeps),
        }
    }
    Ok(sweeps)
}

/// Legs as they are told. The only refusal is out of memory.
pub(crate) fn leg_rows(
    alloc: Global,
    names: &[VenueName],
    legs: Vec<LegStanding>,
) -> Result<Vec<LegRow>, AllocError>
    ensures { IfOk result (λ rows. rows.items ≡ filter_map (row_of names.now) legs.items) }
{
    let mut rows = Vec::new(alloc);
    for leg in legs {
        if let Some(row) = leg_row(names, leg) {
            rows.push(row)?;
        }
    }
    Ok(rows)
}

/// How the venues stand, by their places. It may wait for locks. The only refusal is out of memory.
pub(crate) fn venue_rows<L: Run, M: Accounts, W: Write + Drop, J: Telling>(
    rt: &impl Wait,
    clock: &impl Clock,
    alloc: Global,
    floor: &Floor<L, M, W, J>,
) -> Result<Vec<VenueRow>, AllocError>
    ensures { IfOk result (λ rows. AreAll floor.now.names.items (length floor.now.views.items) rows.items) }
{
    let mut rows = Vec::new(alloc);
    for place in 0..floor.names.len() {
        if let Some(row) = venue_row(rt, clock, alloc, floor, place)? {
            rows.push(row)?;
        }
    }
    Ok(rows)
}
