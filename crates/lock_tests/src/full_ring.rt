//! A ring and a backlog at their limits.

ghost use Rattle.std.specs.Prelude.{◌≡◌};

use crate::desk::{lowers, placed_at, pops_to, received, releases};
use crate::orders::legs_of_ten;
use exec_collector::{Accounts, Collector};
use release_lock::{CallerSeat, ReleaseLock, Run, VenueDrain};
use std::alloc::Global;
use std::ops::Range;
use std::sync::Wait;
use std::test::Fail;
use sweep_release::{Desk, GateFault, ReleaseFault};

/// Sweeps of 32 legs are released under these numbers.
fn fills<L: Run, M: Accounts>(
    rt: &impl Wait,
    alloc: Global,
    lock: &ReleaseLock<L>,
    collector: &Collector<M>,
    seat: &mut CallerSeat<L>,
    numbers: Range<u64>,
) -> Result<(), Fail>
    requires tied { L.sweeps ≡ M.sweeps }
{
    for number in numbers {
        let receipt = lock.release(rt, collector, legs_of_ten(alloc, 32)?, seat);
        if receipt != received(number, 320) {
            return Err(Fail::from("32 legs more"));
        }
    }
    Ok(())
}

/// How many legs stay at the desk.
fn behind<L: Run>(rt: &impl Wait, lock: &ReleaseLock<L>, drain: &VenueDrain<L>) -> usize {
    let at = drain.venue();
    lock.with(rt, |desk: &mut Desk| placed_at(desk, at))
}

/// So many legs stay at the desk, and the ring has 64.
fn are_behind<L: Run>(
    rt: &impl Wait,
    lock: &ReleaseLock<L>,
    drain: &VenueDrain<L>,
    count: usize,
) -> Result<(), Fail> {
    if behind(rt, lock, drain) != count || !pumps(rt, lock, drain, 64) {
        return Err(Fail::from("64 in the ring, and the others behind it"));
    }
    Ok(())
}

/// Whether after a pump so many legs were pushed in all.
fn pumps<L: Run>(rt: &impl Wait, lock: &ReleaseLock<L>, drain: &VenueDrain<L>, all: u64) -> bool {
    lock.pump(rt, drain.venue()) == all
}

/// Whether the gate stays down, since legs are placed or in the ring.
fn stays_down<L: Run>(rt: &impl Wait, lock: &ReleaseLock<L>, drain: &VenueDrain<L>) -> bool {
    lock.raise(rt, drain) == Err(GateFault::NotDrained)
}

/// The gate stays down while legs are placed or in the ring; in each round the next 64 go through it.
fn drains_all<L: Run>(
    rt: &impl Wait,
    lock: &ReleaseLock<L>,
    drain: &mut VenueDrain<L>,
) -> Result<(), Fail> {
    for all in [64, 128, 192, 256, 320] {
        if !pumps(rt, lock, drain, all) || !stays_down(rt, lock, drain) {
            return Err(Fail::from("64 more in the ring"));
        }
        if !pops_to(rt, drain, all) || (all < 320 && !stays_down(rt, lock, drain)) {
            return Err(Fail::from("the next 64"));
        }
    }
    if lock.raise(rt, drain) != Ok(()) || drain.pop(rt).is_some() {
        return Err(Fail::from("drained"));
    }
    Ok(())
}

/// A ring of 64 legs, and 256 behind it; the gate goes down, and up again once all were popped.
pub(crate) fn fills_up<L: Run, M: Accounts>(
    rt: &impl Wait,
    alloc: Global,
    lock: &ReleaseLock<L>,
    collector: &Collector<M>,
    seat: &mut CallerSeat<L>,
    drain: &mut VenueDrain<L>,
) -> Result<(), Fail>
    requires tied { L.sweeps ≡ M.sweeps }
{
    lock.raise(rt, drain)?;
    fills(rt, alloc, lock, collector, seat, 1..9)?;
    are_behind(rt, lock, drain, 192)?;
    fills(rt, alloc, lock, collector, seat, 9..11)?;
    are_behind(rt, lock, drain, 256)?;
    let at = drain.venue();
    let full = Err(ReleaseFault::BacklogFull(at));
    let one = legs_of_ten(alloc, 1)?;
    releases(rt, lock, collector, seat, one, full, 3_200)?;
    are_behind(rt, lock, drain, 256)?;
    lock.with(rt, |desk: &mut Desk| lowers(desk, at));
    drains_all(rt, lock, drain)
}

/// With 64 legs in the ring and 32 behind it, five are popped. A refused sweep moves none; the next one moves five.
pub(crate) fn moves_on<L: Run, M: Accounts>(
    rt: &impl Wait,
    alloc: Global,
    lock: &ReleaseLock<L>,
    collector: &Collector<M>,
    seat: &mut CallerSeat<L>,
    drain: &mut VenueDrain<L>,
) -> Result<(), Fail>
    requires tied { L.sweeps ≡ M.sweeps }
{
    lock.raise(rt, drain)?;
    fills(rt, alloc, lock, collector, seat, 1..4)?;
    if !pops_to(rt, drain, 5) {
        return Err(Fail::from("the first five"));
    }
    let many = legs_of_ten(alloc, 33)?;
    let refused = Err(ReleaseFault::TooManyLegs);
    releases(rt, lock, collector, seat, many, refused, 960)?;
    if behind(rt, lock, drain) != 32 {
        return Err(Fail::from("none moved"));
    }
    let one = legs_of_ten(alloc, 1)?;
    releases(rt, lock, collector, seat, one, received(4, 10), 970)?;
    if behind(rt, lock, drain) != 28 {
        return Err(Fail::from("five moved"));
    }
    Ok(())
}
