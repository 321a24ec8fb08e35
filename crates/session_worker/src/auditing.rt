//! The audit of a day, once its threads have ended.

ghost use Rattle.std.specs.Prelude.{◌≡◌, ◌<◌, IfOk, IsOk, IsOkUnless};
ghost use Rattle.std.specs.List.{All};
ghost use Rattle.exec_collector.specs.Booked.{IsKept};
ghost use Rattle.exec_collector.specs.Resolved.{Replays as BookReplays};
ghost use Rattle.exec_collector.specs.Seats.{parts_of, shares_of};
ghost use Rattle.exec_collector.specs.Unbooked.{CountedParts, IsListOf, WereUnbooked};
ghost use Rattle.sweep_release.specs.History.{KeptDesk as ADesk};
ghost use Rattle.share_ledger.specs.Entries.{opened};
ghost use Rattle.release_lock.specs.Locked.{Replays};
ghost use Rattle.release_lock.specs.Queues.{AreInOrder};
ghost use Rattle.release_lock.specs.Seats.{shares_placed, AreAllPlaced};
ghost use Rattle.session_worker.specs.Audit.{day_of, Audits, AuditsOf, AuditsOpened};
ghost use Rattle.session_worker.specs.Ends.{queues_of, seats_of};

use crate::open_shares::open_shares;
use crate::{AuditFault, DayReport, WorkerEnd};
use exec_collector::{Accounts, Collector, CountedBook, WorkerSeat, check_count};
use kept_link::Telling;
use link::Link;
use release_lock::{
    CallerSeat, LockedDesk, ReleaseLock, Run, VenueEnd, check_placed, check_queues, compare_sweeps,
};
use std::alloc::{AllocError, Global};
use std::collections::VecDeque;

/// Compares what is left of a day: what the workers took with the sweeps released, the workers' seats with the book,
/// and the callers' seats with the desk. A01, A02, A03 in this order; A04 where there is no memory to take the ends
/// apart. With the seats of all callers, and one end for each venue, in order, it is none of the first three, whatever
/// the threads did.
pub fn audit<K: Link, L: Run, M: Accounts, J: Telling, N: Telling>(
    alloc: Global,
    lock: ReleaseLock<L, N>,
    collector: Collector<M>,
    callers: Vec<CallerSeat<L>>,
    ends: Vec<WorkerEnd<K, L, M, J>>,
) -> Result<DayReport, AuditFault>
    requires tied { L.sweeps ≡ M.sweeps }
    ensures audits { AuditsOf callers.items (queues_of ends.items) (seats_of ends.items) result }
    ensures whole { AreInOrder (queues_of ends.items) → parts_of (seats_of ends.items) ≡ M.parts → 0 < M.parts
        → parts_of callers.items ≡ 1024 → IsOkUnless result AuditFault.OutOfMemory }
{
    let mut counted = collector.into_counted();
    audit_opened(alloc, lock.into_locked(), &mut counted, callers, ends)
}

/// The same of a desk and a book that are out of their locks. The book and its list stay as they were, so that it can
/// be told which were audited.
pub fn audit_opened<K: Link, L: Run, M: Accounts, J: Telling, N: Telling>(
    alloc: Global,
    locked: LockedDesk<L, N>,
    counted: &mut CountedBook<M>,
    callers: Vec<CallerSeat<L>>,
    ends: Vec<WorkerEnd<K, L, M, J>>,
) -> Result<DayReport, AuditFault>
    requires tied { L.sweeps ≡ M.sweeps }
    ensures audits { AuditsOpened locked counted.old callers.items (queues_of ends.items) (seats_of ends.items)
        result }
    ensures same { counted.new ≡ counted.old }
    ensures whole { AreInOrder (queues_of ends.items) → parts_of (seats_of ends.items) ≡ M.parts → 0 < M.parts
        → parts_of callers.items ≡ 1024 → IsOkUnless result AuditFault.OutOfMemory }
{
    match parted(alloc, ends) {
        Ok((queues, seats)) => audit_of(locked, counted, callers, queues, seats),
        Err(_) => Err(AuditFault::OutOfMemory),
    }
}

/// The same of the ends taken apart. It takes no memory.
fn audit_of<L: Run, M: Accounts, N: Telling>(
    locked: LockedDesk<L, N>,
    counted: &mut CountedBook<M>,
    callers: Vec<CallerSeat<L>>,
    queues: Vec<VenueEnd<L>>,
    seats: Vec<WorkerSeat<M>>,
) -> Result<DayReport, AuditFault>
    requires tied { L.sweeps ≡ M.sweeps }
    ensures audits { Audits (day_of locked counted.old.book callers.items queues.items seats.items) result }
    ensures replays { Replays locked × BookReplays counted.old.book }
    ensures kept { All (IsKept counted.old.book) seats.items }
    ensures unbooked { IsListOf counted.old.book counted.old.unbooked
        × All (WereUnbooked counted.old.unbooked) seats.items }
    ensures sweeps { opened counted.old.book.entries ≡ locked.desk.sweeps }
    ensures placed { shares_placed callers.items ≡ shares_of callers.items }
    ensures all_placed { parts_of callers.items ≡ 1024 → AreAllPlaced callers.items locked.desk.sweeps }
    ensures same { counted.new ≡ counted.old }
    ensures whole { AreInOrder queues.items → parts_of seats.items ≡ M.parts → 0 < M.parts
        → parts_of callers.items ≡ 1024 → IsOk result }
{
    let mut locked = locked;
    compare_sweeps(&mut locked, counted);
    let placed = check_placed(&mut locked, callers);
    let resolved = check_count(counted, seats);
    let still_open = open_shares(counted.book());
    if let Err(wrong) = check_queues(locked, queues) {
        return Err(AuditFault::MismatchQueue(wrong.place));
    }
    let Ok(resolved) = resolved else {
        return Err(AuditFault::MismatchShares);
    };
    let Ok(placed) = placed else {
        return Err(AuditFault::MismatchPlaced);
    };
    Ok(DayReport {
        placed,
        resolved,
        still_open,
    })
}

/// What the workers took, and their seats, each in the order of the ends.
fn parted<K: Link, L: Run, M: Accounts, J: Telling>(
    alloc: Global,
    ends: Vec<WorkerEnd<K, L, M, J>>,
) -> Result<(Vec<VenueEnd<L>>, Vec<WorkerSeat<M>>), AllocError>
    ensures { IfOk result (λ parts. (parts.0.items ≡ queues_of ends.items) × (parts.1.items ≡ seats_of ends.items)) }
{
    let mut queues = Vec::with_capacity(alloc, ends.len())?;
    let mut seats = Vec::with_capacity(alloc, ends.len())?;
    let mut ends = VecDeque::from(ends);
    while let Some(end) = ends.pop_front() {
        let WorkerEnd {
            session: _,
            took,
            seat,
            link: _,
            journal: _,
            reason: _,
        } = end;
        queues.push(took)?;
        seats.push(seat)?;
    }
    Ok((queues, seats))
}
