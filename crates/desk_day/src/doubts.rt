//! The legs that stay in doubt at the end of a day, and the sessions that weren't closed.

ghost use Rattle.std.specs.Prelude.{◌≡◌, ◌++◌, option_to_list, map, IfOk, OnOk};
ghost use Rattle.std.specs.List.{list_any};
ghost use Rattle.desk_day.specs.Doubts.{doubts_in, if_any, if_doubt, left_in_doubt, venue_legs, was_given_up};

use crate::day::VenueDoubt;
use desk_words::VenueName;
use exec_collector::Accounts;
use kept_link::Telling;
use leg::{LegId, LegState};
use link::Link;
use release_lock::Run;
use session_worker::{EndReason, WorkerEnd};
use std::alloc::{AllocError, Global};

/// The venues whose workers leave legs in doubt, each with these. Each worker is that of the venue at its place. The
/// only refusal is out of memory.
pub fn doubts_of<K: Link, L: Run, M: Accounts, J: Telling>(
    alloc: Global,
    names: &[VenueName],
    ends: &[WorkerEnd<K, L, M, J>],
) -> Result<Vec<VenueDoubt>, AllocError>
    ensures { IfOk result (λ doubts. map venue_legs doubts.items ≡ doubts_in names.now ends.now) }
{
    let mut doubts = Vec::new(alloc);
    for (name, end) in names.iter().zip(ends.iter()) {
        let legs = legs_in_doubt(alloc, end)?;
        push_if_any(&mut doubts, name, legs)?;
    }
    Ok(doubts)
}

/// Pushes a venue with these legs, if there are any.
fn push_if_any(
    doubts: &mut Vec<VenueDoubt>,
    name: &VenueName,
    legs: Vec<LegId>,
) -> Result<(), AllocError>
    ensures { OnOk result (map venue_legs doubts.new.items
        ≡ map venue_legs doubts.old.items ++ option_to_list (if_any name.now legs.items)) }
{
    if legs.is_empty() {
        return Ok(());
    }
    let venue = name.clone()?;
    doubts.push(VenueDoubt { venue, legs })?;
    Ok(())
}

/// The legs that a worker sent and that aren't settled, in order. The only refusal is out of memory.
fn legs_in_doubt<K: Link, L: Run, M: Accounts, J: Telling>(
    alloc: Global,
    end: &WorkerEnd<K, L, M, J>,
) -> Result<Vec<LegId>, AllocError>
    ensures { IfOk result (λ legs. legs.items ≡ left_in_doubt end.now) }
{
    let mut legs = Vec::new(alloc);
    let taken = end.took.taken();
    for placed in taken {
        let state = end.session.leg_state(placed.ordinal);
        push_if_doubt(&mut legs, state, placed.leg.id)?;
    }
    Ok(legs)
}

/// Pushes a leg in this state, if that is doubt.
fn push_if_doubt(
    legs: &mut Vec<LegId>,
    state: Option<LegState>,
    leg: LegId,
) -> Result<(), AllocError>
    ensures { OnOk result (legs.new.items ≡ legs.old.items ++ option_to_list (if_doubt state leg)) }
{
    match state {
        Some(LegState::Doubt) => legs.push(leg)?,
        Some(LegState::Queued) => {}
        Some(LegState::Taken) => {}
        Some(LegState::Withdrawn) => {}
        None => {}
    }
    Ok(())
}

/// Whether a worker gave its session up.
pub fn is_given_up<K: Link, L: Run, M: Accounts, J: Telling>(ends: &[WorkerEnd<K, L, M, J>]) -> bool
    ensures { result ≡ list_any (λ left. was_given_up left.reason) ends.now }
{
    ends.iter().any(|end| was_given_up(end.reason))
}

/// Whether a worker that ended for this reason gave its session up.
fn was_given_up(reason: EndReason) -> bool
    ensures { result ≡ was_given_up reason }
{
    match reason {
        EndReason::Closed => false,
        EndReason::TurnLimit | EndReason::Stopped => true,
    }
}
