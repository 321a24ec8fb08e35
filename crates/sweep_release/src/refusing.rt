//! Why a sweep isn't released.

ghost use Rattle.std.specs.Prelude.{◌≡◌, ◌<◌, ◌≤◌, [], length, not, nat_le, IfNone};
ghost use Rattle.std.specs.List.{All};
ghost use Rattle.sweep_release.specs.Desk.{is_up, gate_of, refused_at, count_to, backlog_refusal, release_refusal};

use crate::desk::MAX_PLACED;
use crate::{Desk, Gate, ReleaseFault};
use leg::{MAX_SWEEP, Routed, VenueId};
use share_ledger::{MAX_DAY_SHARES, MAX_LEGS, shares_of};

/// The first refusal of a sweep, out of memory aside.
pub fn refusal(desk: &Desk, legs: &[Routed]) -> Option<ReleaseFault>
    ensures value { result ≡ release_refusal desk.now.desk legs.now }
    ensures short { IfNone result (length legs.now ≤ 32) }
    ensures known { IfNone result (All (λ routed. routed.venue < length desk.now.desk.venues) legs.now) }
{
    if legs.is_empty() {
        return Some(ReleaseFault::Empty);
    }
    if legs.len() > MAX_LEGS {
        return Some(ReleaseFault::TooManyLegs);
    }
    if let Some(fault) = first_unknown(desk.venues(), legs) {
        return Some(fault);
    }
    if let Some(fault) = first_closed(desk, legs) {
        return Some(fault);
    }
    if let Some(fault) = first_full(desk, legs) {
        return Some(fault);
    }
    if desk.next_number() > MAX_SWEEP || desk.placed_shares() + shares_of(legs) > MAX_DAY_SHARES {
        return Some(ReleaseFault::SweepsSpent);
    }
    None
}

/// The refusal of the first leg whose gate isn't up.
fn first_closed(desk: &Desk, legs: &[Routed]) -> Option<ReleaseFault>
    requires { All (λ routed. routed.venue < length desk.now.desk.venues) legs.now }
    ensures { result ≡ refused_at ReleaseFault.GateShut (λ venue. not (is_up (gate_of desk.now.desk venue))) legs.now }
{
    for routed in legs {
        match desk.gate(routed.venue) {
            Gate::Up => {}
            Gate::Down => return Some(ReleaseFault::GateShut(routed.venue)),
            Gate::Shut => return Some(ReleaseFault::GateShut(routed.venue)),
        }
    }
    None
}

/// The refusal of the first leg that finds its venue's queue full, the sweep's legs before it counted.
fn first_full(desk: &Desk, legs: &[Routed]) -> Option<ReleaseFault>
    requires known { All (λ routed. routed.venue < length desk.now.desk.venues) legs.now }
    requires short { length legs.now ≤ 32 }
    ensures { result ≡ backlog_refusal desk.now.desk [] legs.now }
{
    for at in 0..legs.len() {
        let venue = legs[at].venue;
        if desk.placed(venue) + legs_for(venue, &legs[..at]) + 1 > MAX_PLACED {
            return Some(ReleaseFault::BacklogFull(venue));
        }
    }
    None
}

/// The refusal of the first leg for a venue that isn't one of so many.
fn first_unknown(venues: usize, legs: &[Routed]) -> Option<ReleaseFault>
    ensures value { result ≡ refused_at ReleaseFault.UnknownVenue (λ venue. nat_le venues venue) legs.now }
    ensures known { IfNone result (All (λ routed. routed.venue < venues) legs.now) }
{
    for routed in legs {
        if usize::from(routed.venue.number()) >= venues {
            return Some(ReleaseFault::UnknownVenue(routed.venue));
        }
    }
    None
}

/// How many of these orders are for a venue.
fn legs_for(venue: VenueId, legs: &[Routed]) -> usize
    ensures value { result ≡ count_to venue legs.now }
    ensures few { result ≤ length legs.now }
{
    let mut count = 0;
    for routed in legs {
        if routed.venue.number() == venue.number() {
            count += 1;
        }
    }
    count
}
