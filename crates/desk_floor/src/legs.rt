//! The legs of a sweep, as the book, the desk and the venues' workers have them.

ghost use Rattle.std.specs.Prelude.{◌≡◌, ◌≤◌, ◌+◌, length, slice_get, IfOk};
ghost use Rattle.sweep_release.specs.History.{KeptDesk};
ghost use Rattle.release_lock.specs.Held.{OnlyLowers};
ghost use Rattle.release_lock.specs.Locked.{Replays};
ghost use Rattle.desk_floor.specs.Legs.{AreLegs, IsHalved, IsPaidLeg, IsStanding, is_before, one_of, paid_leg_in};
ghost use Rattle.desk_floor.specs.Legs.{released_under};
ghost use Rattle.desk_floor.specs.Standing.{leg_state_of};
ghost use Rattle.leg.specs.LegId.{IsLegId};

use crate::floor::Floor;
use crate::venue_view::VenueView;
use day_sweeps::leg_paid;
use desk_news::Paid;
use exec_collector::{Accounts, Beside, Collector, Unbooked};
use kept_link::Telling;
use leg::{Leg, LegId, LegState, MAX_PLACE, MAX_SWEEP, PlacedLeg, Split, Terms, VenueId};
use release_lock::{ReleaseLock, Run};
use share_ledger::{Book, BookedLeg};
use std::alloc::{AllocError, Global};
use std::io::Write;
use std::sync::Wait;
use sweep_release::Desk;

/// How a leg stands.
#[derive(Debug, Drop)]
pub struct LegStanding {
    pub id: LegId,
    pub venue: VenueId,
    pub terms: Terms,
    pub parts: Split,
    /// What was paid for it, and what is disputed of it.
    pub paid: Paid,
    pub state: LegState,
}

/// How far a leg has come: the book has these parts of it, it is this one of its venue's legs, so many of which were
/// taken, and none up to `settled` is in doubt.
fn state_of(parts: &Split, ordinal: u64, taken: u64, settled: u64) -> LegState
    ensures { result ≡ leg_state_of parts.now ordinal taken settled }
{
    if parts.withdrawn() > 0 {
        LegState::Withdrawn
    } else if taken < ordinal {
        LegState::Queued
    } else if ordinal <= settled || parts.still_open() == 0 {
        LegState::Taken
    } else {
        LegState::Doubt
    }
}

/// A leg of a book, with what was paid for it.
fn paid_leg(book: &Book, beside: &Beside, id: LegId) -> Option<(BookedLeg, Paid)>
    ensures { result ≡ paid_leg_in book.now beside.now id }
{
    let leg = book.leg(id)?;
    let paid = leg_paid(beside, id, leg.parts.filled());
    Some((leg, paid))
}

/// The leg of this number, if its sweep was opened, of a book that replays from its own history, with what was paid for
/// it, as both are at one moment. It may wait for the lock.
fn paid_leg_now<M: Accounts>(
    rt: &impl Wait,
    collector: &Collector<M>,
    id: LegId,
) -> Option<(BookedLeg, Paid)>
    ensures { IsPaidLeg id result }
{
    collector.read_day(
        rt,
        |book: &Book, _unbooked: &[Unbooked], beside: &Beside| -> Option<(BookedLeg, Paid)>
            ensures { result ≡ paid_leg_in book.now beside.now id }
        { paid_leg(book, beside, id) },
    )
}

/// Whether a leg is of an earlier sweep than another, or in front of it in the same one.
fn is_before(leg: &Leg, id: LegId) -> bool
    ensures { result ≡ is_before leg.now.id id }
{
    (leg.id.sweep(), leg.id.place()) < (id.sweep(), id.place())
}

/// Where a number stands, or would stand, among legs that are in the order of their numbers.
fn place_of(legs: &[Leg], id: LegId) -> usize
    ensures few { result ≤ length legs.now }
    ensures halves { IsHalved id legs.now result }
{
    legs.partition_point(|leg| is_before(leg, id))
}

/// The leg at a place with its ordinal, if it has this number.
fn leg_at(legs: &[Leg], place: usize, id: LegId) -> Result<Option<PlacedLeg>, AllocError>
    ensures { IfOk result (λ found. found ≡ one_of id (place + 1) (slice_get legs.now place)) }
{
    let Some(leg) = legs.get(place) else {
        return Ok(None);
    };
    if leg.id != id {
        return Ok(None);
    }
    Ok(Some(PlacedLeg {
        ordinal: (place as u64).saturating_add(1),
        leg: leg.clone()?,
    }))
}

/// The leg of a number among those released to a venue, with its ordinal there, if it is one of them. The legs of a
/// venue are in the order of their numbers.
fn released_leg(desk: &mut Desk, venue: VenueId, id: LegId) -> Result<Option<PlacedLeg>, AllocError>
    ensures value { IfOk result (λ found. found ≡ released_under desk.old.desk venue id) }
    ensures turns { OnlyLowers desk.old desk.new }
{
    let legs = desk.released(venue);
    leg_at(legs, place_of(legs, id), id)
}

/// The leg of a number as a desk has released it to a venue that replays from its own history, if it has. It may wait
/// for the lock.
fn released_now<L: Run, J: Telling>(
    rt: &impl Wait,
    lock: &ReleaseLock<L, J>,
    venue: VenueId,
    id: LegId,
) -> Result<Option<PlacedLeg>, AllocError>
    ensures { (desk : KeptDesk) × Replays desk
        × IfOk result (λ found. found ≡ released_under desk.desk venue id) }
{
    lock.with(rt, |desk: &mut Desk| released_leg(desk, venue, id))
}

/// How a leg stands that the book has, if the desk has it too.
fn standing_of<L: Run, M: Accounts, W: Write + Drop, J: Telling>(
    rt: &impl Wait,
    floor: &Floor<L, M, W, J>,
    id: LegId,
    booked: &BookedLeg,
    paid: Paid,
) -> Result<Option<LegStanding>, AllocError>
    ensures { IfOk result (λ leg. IsStanding (length floor.now.views.items) id booked.now paid leg) }
{
    let venue = booked.venue;
    let Some(view) = floor.views.get(usize::from(venue.number())) else {
        return Ok(None);
    };
    let Some(placed) = released_now(rt, &floor.lock, venue, id)? else {
        return Ok(None);
    };
    Ok(Some(LegStanding {
        id,
        venue,
        terms: placed.leg.terms,
        parts: booked.parts,
        paid,
        state: state_of(&booked.parts, placed.ordinal, view.taken(), view.settled()),
    }))
}

/// The legs of the sweep of this number, by their places; none where no sweep has it. It may wait for the locks, one
/// after the other, so that its legs need not be of one moment. The only refusal is out of memory.
pub fn sweep_legs<L: Run, M: Accounts, W: Write + Drop, J: Telling>(
    rt: &impl Wait,
    alloc: Global,
    floor: &Floor<L, M, W, J>,
    number: u64,
) -> Result<Vec<LegStanding>, AllocError>
    ensures { IfOk result (λ legs. AreLegs (length floor.now.views.items) number legs.items) }
{
    let mut legs = Vec::new(alloc);
    if number < 1 || number > MAX_SWEEP {
        return Ok(legs);
    }
    for place in 1..=MAX_PLACE {
        let id = LegId::new(number, place);
        let Some((booked, paid)) = paid_leg_now(rt, &floor.collector, id) else {
            break;
        };
        if let Some(leg) = standing_of(rt, floor, id, &booked, paid)? {
            legs.push(leg)?;
        }
    }
    Ok(legs)
}
