//! What is asked of the desk under its lock, and what is popped from a ring.

ghost use Rattle.std.specs.Prelude.{◌≡◌};
ghost use Rattle.release_lock.specs.Held.{OnlyLowers};

use exec_collector::{Accounts, Collector};
use leg::{Sweep, VenueId};
use release_lock::{CallerSeat, ReleaseLock, Run, VenueDrain};
use std::sync::Wait;
use std::test::Fail;
use sweep_release::{Desk, DeskEntry, Receipt, ReleaseFault};

/// Puts a gate down, if the desk has it.
pub(crate) fn lowers(desk: &mut Desk, at: VenueId)
    ensures { OnlyLowers desk.old desk.new }
{
    if usize::from(at.number()) < desk.venues() {
        desk.gate_down(at);
    }
}

/// The number of entries, the shares placed, and the number of legs of the last sweep that was released.
pub(crate) fn last_sweep(desk: &mut Desk) -> (usize, u64, usize)
    ensures { OnlyLowers desk.old desk.new }
{
    let mut legs = 0;
    for entry in desk.history() {
        if let DeskEntry::Released(sweep) = entry {
            legs = sweep.legs.len();
        }
    }
    (desk.history().len(), desk.placed_shares(), legs)
}

/// How many legs are placed at a venue, if the desk has it.
pub(crate) fn placed_at(desk: &mut Desk, at: VenueId) -> usize
    ensures { OnlyLowers desk.old desk.new }
{
    if usize::from(at.number()) < desk.venues() {
        desk.placed(at)
    } else {
        0
    }
}

/// A sweep is released, with this answer; the seat then has so many shares.
pub(crate) fn releases<L: Run, M: Accounts>(
    rt: &impl Wait,
    lock: &ReleaseLock<L>,
    collector: &Collector<M>,
    seat: &mut CallerSeat<L>,
    orders: Sweep,
    wanted: Result<Receipt, ReleaseFault>,
    shares: u64,
) -> Result<(), Fail>
    requires tied { L.sweeps ≡ M.sweeps }
{
    if lock.release(rt, collector, orders, seat) != wanted || seat.shares() != shares {
        return Err(Fail::from("the receipt and the seat"));
    }
    Ok(())
}

/// What is answered for a sweep that was released.
pub(crate) fn received(number: u64, shares: u64) -> Result<Receipt, ReleaseFault> {
    Ok(Receipt { number, shares })
}

/// Pops legs up to so many in all, and says whether their ordinals are the next ones.
pub(crate) fn pops_to<L: Run>(rt: &impl Wait, drain: &mut VenueDrain<L>, count: u64) -> bool {
    for _ in drain.popped()..count {
        match drain.pop_to(rt, count) {
            Some(leg) if leg.ordinal == drain.popped() => {}
            Some(_) => return false,
            None => return false,
        }
    }
    drain.pop_to(rt, count).is_none()
}
