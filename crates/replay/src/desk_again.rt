//! The desk is made again.

ghost use Rattle.std.specs.Prelude.{◌≡◌, ◌<◌, ◌≤◌, ◌++◌, [], ◌∷◌, false, length, take, IfOk, OnOk};
ghost use Rattle.sweep_release.specs.Desk.{gate_of, is_shut, with_venue};
ghost use Rattle.sweep_release.specs.Laws.{IsCounted};
ghost use Rattle.sweep_release.specs.Released.{released};
ghost use Rattle.world_restart.specs.Start.{gate_started};
ghost use Rattle.replay.specs.Ruling.{IsOpenDesk};

use leg::{Legs, Routed, Sweep, VenueId};
use std::alloc::{AllocError, Global};
use sweep_release::{Desk, DeskEntry, GateFault};

/// A desk of as many venues, at which the first so many sweeps of another were released again, in order: every gate is
/// up, and no leg is placed. The only refusal is out of memory.
pub(crate) fn desk_again(alloc: Global, before: &Desk, kept: usize) -> Result<Desk, AllocError>
    requires low { 1 ≤ length before.now.desk.venues }
    ensures sweeps { IfOk result (λ desk. desk.desk.sweeps ≡ take kept before.now.desk.sweeps) }
    ensures venues { IfOk result (λ desk. length desk.desk.venues ≡ length before.now.desk.venues) }
    ensures unshut { IfOk result (λ desk. IsOpenDesk desk.desk) }
{
    let count = before.venues();
    let mut desk = open_desk(alloc, count)?;
    let mut left = kept;
    for entry in before.history() {
        if let DeskEntry::Released(sweep) = entry {
            if left > 0 {
                release_again(alloc, &mut desk, sweep.legs.as_slice())?;
                left -= 1;
            }
        }
    }
    Ok(desk)
}

/// A desk of so many venues, every gate up.
fn open_desk(alloc: Global, count: usize) -> Result<Desk, AllocError>
    requires low { 1 ≤ count }
    requires high { count ≤ 16 }
    ensures sweeps { IfOk result (λ desk. desk.desk.sweeps ≡ []) }
    ensures venues { IfOk result (λ desk. length desk.desk.venues ≡ count) }
    ensures unshut { IfOk result (λ desk. IsOpenDesk desk.desk) }
{
    let Ok(mut desk) = Desk::new(alloc, count as u8) else {
        return Err(AllocError);
    };
    for number in 0..count {
        if desk.gate_up(venue_number(number)).is_err() {
            return Err(AllocError);
        }
    }
    Ok(desk)
}

/// The number of a venue.
pub(crate) fn venue_number(number: usize) -> VenueId
    requires { number < 16 }
    ensures { result ≡ number }
{
    VenueId::new(number as u8).unwrap()
}

/// A sweep is released again, and all its legs leave.
fn release_again(alloc: Global, desk: &mut Desk, legs: &[Routed]) -> Result<(), AllocError>
    requires { IsOpenDesk desk.old.desk }
    ensures sweeps { OnOk result (desk.new.desk.sweeps ≡ desk.old.desk.sweeps ++ legs.now ∷ []) }
    ensures venues { OnOk result (length desk.new.desk.venues ≡ length desk.old.desk.venues) }
    ensures unshut { OnOk result (IsOpenDesk desk.new.desk) }
{
    let copy = copied(alloc, legs)?;
    // A sweep that was released from such a desk is released again.
    if desk
        .release(Sweep {
            legs: Legs::new(copy),
        })
        .is_err()
    {
        return Err(AllocError);
    }
    for number in 0..desk.venues() {
        take_all(desk, venue_number(number));
    }
    Ok(())
}

/// A copy of a sweep's orders.
fn copied(alloc: Global, legs: &[Routed]) -> Result<Vec<Routed>, AllocError>
    ensures { IfOk result (λ copy. copy.items ≡ legs.now) }
{
    let mut copy = Vec::with_capacity(alloc, legs.len())?;
    for routed in legs {
        copy.push_reserved(Routed {
            venue: routed.venue,
            terms: routed.terms.clone().unwrap(),
        });
    }
    Ok(copy)
}

/// All legs placed at a venue leave.
fn take_all(desk: &mut Desk, venue: VenueId)
    requires there { venue < length desk.old.desk.venues }
    requires unshut { IsOpenDesk desk.old.desk }
    ensures sweeps { desk.new.desk.sweeps ≡ desk.old.desk.sweeps }
    ensures venues { length desk.new.desk.venues ≡ length desk.old.desk.venues }
    ensures unshut { IsOpenDesk desk.new.desk }
{
    for _ in 0..desk.placed(venue) {
        desk.take(venue);
    }
}

/// The start at a venue of the desk: its gate is down, or shut if it was, and every leg has left.
pub(crate) fn start_gate(desk: &mut Desk, venue: VenueId, shut: bool)
    requires there { venue < length desk.old.desk.venues }
    requires unshut { is_shut (gate_of desk.old.desk venue) ≡ false }
    requires counted { IsCounted desk.old.desk venue }
    ensures { desk.new.desk ≡ with_venue venue (record {
      gate = gate_started shut;
      left = length (released venue desk.old.desk.sweeps);
    }) desk.old.desk }
{
    desk.gate_down(venue);
    for _ in 0..desk.placed(venue) {
        desk.drop_next(venue);
    }
    if shut {
        desk.shut(venue);
    }
}
