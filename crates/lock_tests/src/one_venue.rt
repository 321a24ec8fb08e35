//! A lock and a collector of one venue, at which something is tried.

ghost use Rattle.std.specs.Prelude.{◌≡◌, length, map};
ghost use Rattle.std.specs.List.{All};
ghost use Rattle.release_lock.specs.Queues.{IsFresh};

use crate::full_ring::{fills_up, moves_on};
use crate::read_back::reads_back;
use exec_collector::{Accounts, BlankBook, Collector};
use release_lock::{
    BlankDesk, CallerSeat, Miscounted, Opened, ReleaseLock, Run, check_placed, rings,
};
use std::alloc::Global;
use std::collections::VecDeque;
use std::marker::Brand;
use std::sync::Wait;
use std::test::Fail;
use venue_queue::{Drain, Feed};

/// What is tried.
#[derive(Clone, Copy)]
enum Trial {
    /// What is released is read back.
    ReadsBack,
    /// A ring of 64 legs, and 256 behind it.
    FillsUp,
    /// A ring that is full, and legs behind it that move on.
    MovesOn,
}

/// Without the seat the count is wrong; with it these are the shares placed.
fn counts<L: Run>(alloc: Global, lock: ReleaseLock<L>, seat: CallerSeat<L>) -> Result<u64, Fail> {
    let mut locked = lock.into_locked();
    if check_placed(&mut locked, Vec::new(alloc)) != Err(Miscounted) {
        return Err(Fail::from("no seat"));
    }
    let mut seats = Vec::new(alloc);
    seats.push(seat)?;
    Ok(check_placed(&mut locked, seats).ok().ok_or("the seats")?)
}

/// How many shares are placed in the end.
fn at_one_venue<L: Run, M: Accounts>(
    rt: &impl Wait,
    alloc: Global,
    callers: BlankDesk,
    workers: BlankBook,
    rings: VecDeque<(Feed, Drain)>,
    trial: Trial,
) -> Result<u64, Fail>
    requires callers { (callers.name ≡ L.name) × (callers.parts ≡ L.parts) × (L.parts ≡ 1024)
        × (callers.slips ≡ L.slips) }
    requires workers { (workers.name ≡ M.name) × (workers.parts ≡ M.parts) × (M.parts ≡ 1) }
    requires lists { (workers.lists ≡ M.lists) × (workers.sweeps ≡ M.sweeps) }
    requires tied { L.sweeps ≡ M.sweeps }
    requires rings { (length rings.items ≡ 1) × All IsFresh rings.items }
    requires queues { L.queues ≡ map (λ ends. ends.0.table) rings.items }
{
    let (collector, mut workers, opened) = Collector::<M>::new(alloc, 1, workers)?;
    let mut worker = workers.pop().ok_or("a seat")?;
    let Opened {
        lock,
        mut seat,
        mut drains,
    } = ReleaseLock::<L>::new(alloc, 1, callers, rings, opened)?;
    let mut drain = drains.pop().ok_or("a drain")?;
    match trial {
        Trial::ReadsBack => reads_back(
            rt,
            alloc,
            &lock,
            &collector,
            &mut seat,
            &mut drain,
            &mut worker,
        ),
        Trial::FillsUp => fills_up(rt, alloc, &lock, &collector, &mut seat, &mut drain),
        Trial::MovesOn => moves_on(rt, alloc, &lock, &collector, &mut seat, &mut drain),
    }?;
    counts(alloc, lock, seat)
}

fn tries(rt: &impl Wait, alloc: Global, trial: Trial) -> Result<u64, Fail> {
    let rings = rings(alloc, 1)?;
    let workers = BlankBook::new(alloc, 1)?;
    at_one_venue::<Brand, Brand>(rt, alloc, BlankDesk::new(1024), workers, rings, trial)
}

#[test]
fn release_reads_back(rt: HostRuntime) -> Result<(), Fail> {
    assert_eq!(rt; tries(&rt, rt.alloc(), Trial::ReadsBack)?, 40);
    Ok(())
}

#[test]
fn sixty_four_in_the_ring(rt: HostRuntime) -> Result<(), Fail> {
    assert_eq!(rt; tries(&rt, rt.alloc(), Trial::FillsUp)?, 3_200);
    Ok(())
}

#[test]
fn a_refused_sweep_moves_no_leg(rt: HostRuntime) -> Result<(), Fail> {
    assert_eq!(rt; tries(&rt, rt.alloc(), Trial::MovesOn)?, 970);
    Ok(())
}
