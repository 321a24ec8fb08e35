//! A day whose threads have ended.

ghost use Rattle.std.specs.Prelude.{◌≡◌, ◌+◌, ◌<◌, ◌++◌, length, map, None, Ok, option_to_list, IfOk, IfErr};
ghost use Rattle.exec_collector.specs.Day.{note_count};
ghost use Rattle.exec_collector.specs.Seats.{parts_of as seat_parts, shares_of};
ghost use Rattle.exec_collector.specs.Unbooked.{without_room};
ghost use Rattle.release_lock.specs.Queues.{AreInOrder};
ghost use Rattle.session_worker.specs.Audit.{AuditedDay, counted_of};
ghost use Rattle.session_worker.specs.Ends.{queues_of, seats_of};
ghost use Rattle.session_worker.specs.Places.{place, new_places};
ghost use Rattle.desk_venues.specs.Faults.{IsNoMismatch};
ghost use Rattle.desk_day.specs.Told.{IsTold};
ghost use Rattle.desk_day.specs.Seats.{shared_parts};
ghost use Rattle.desk_day.specs.Unbooked.{unbooked_in};

use crate::DeskDay;
use crate::doubts::{doubts_of, is_given_up};
use crate::ending::keep_end;
use crate::followers::tell_followers;
use day_executions::{all_untaken, named};
use day_sweeps::paid_sweeps;
use desk_executions::Execution;
use desk_floor::{Floor, Left, TalkFault};
use desk_serve::Ended;
use desk_venues::DayFault;
use desk_words::VenueName;
use exec_collector::{Accounts, CountedBook, DayBook};
use kept_link::Telling;
use link::Link;
use release_lock::{CallerSeat, LockedDesk, Run};
use session_worker::{AuditFault, DayReport, WorkerEnd, audit_opened};
use std::alloc::{AllocError, Global};
use std::io::Write;
use std::sync::Wait;
use std::time::Clock;

/// What became of a day whose threads have ended, and whose callers left these seats; lines were broken off for this
/// reason, if they were. It is audited, and those who followed it are told.
pub fn close_day<K: Link, L: Run, M: Accounts, W: Write + Drop, J: Telling, R: Wait + Clock>(
    rt: &R,
    alloc: Global,
    floor: Floor<L, M, W, J>,
    ended: Ended<K, L, M, J>,
    seats: Vec<CallerSeat<L>>,
    broken_off: Option<TalkFault>,
) -> Result<DeskDay, DayFault>
    requires workers { map (λ e. place e.parts) ended.workers.items ≡ new_places M.parts }
    requires some { 0 < M.parts }
    requires seats { seat_parts seats.items + shared_parts floor.shared ≡ 1024 }
    ensures told { IfOk result (IsTold floor.names.items ended.workers.items) }
    ensures broken_off { IfOk result (λ day. day.broken_off ≡ broken_off) }
    ensures placed { IfOk result (λ day. floor.shared ≡ None → day.report.placed ≡ shares_of seats.items) }
    ensures only { IfErr result IsNoMismatch }
{
    let Ended { workers, followers } = ended;
    let Left {
        names,
        lock,
        collector,
        shared,
    } = floor.into_left();
    let seats = with_shared(seats, shared)?;
    let booked = collector.into_day();
    let unbooked = unbooked_executions(alloc, &booked, names.as_slice())?;
    let sweeps = paid_sweeps(alloc, &booked)?;
    let mut counted = booked.into_counted();
    let doubts = doubts_of(alloc, names.as_slice(), workers.as_slice())?;
    let is_given_up = is_given_up(workers.as_slice());
    let (desk, journal) = lock.into_locked().part();
    let report = audited(alloc, desk, &mut counted, seats, workers);
    if report.is_ok() {
        keep_end(rt, journal);
    }
    tell_followers(alloc, followers, &report);
    Ok(DeskDay {
        sweeps,
        doubts,
        unbooked,
        is_given_up,
        report: report?,
        broken_off,
    })
}

/// What exchanges said and this book didn't take, with its words and the names of their venues. The only refusal is out
/// of memory.
fn unbooked_executions<M: Accounts>(
    alloc: Global,
    day: &DayBook<M>,
    names: &[VenueName],
) -> Result<Vec<Execution>, AllocError>
    ensures told { IfOk result (λ executions.
        executions.items ≡ unbooked_in names.now (without_room day.now.counted) day.now.words) }
    ensures one_each { length day.now.words ≡ note_count (without_room day.now.counted) }
{
    let counted = day.counted();
    let notes = all_untaken(alloc, counted.book(), counted.unbooked(), day.words())?;
    let unbooked = named(alloc, names, notes)?;
    Ok(unbooked)
}

/// All seats of a day: those of its callers, and the one of the page's clients, if there is one.
fn with_shared<L: Run>(
    seats: Vec<CallerSeat<L>>,
    shared: Option<CallerSeat<L>>,
) -> Result<Vec<CallerSeat<L>>, AllocError>
    ensures { IfOk result (λ all. all.items ≡ seats.items ++ option_to_list shared) }
{
    let mut seats = seats;
    if let Some(seat) = shared {
        seats.push(seat)?;
    }
    Ok(seats)
}

/// The audit of a day, with this book.
fn audited<K: Link, L: Run, M: Accounts, J: Telling>(
    alloc: Global,
    desk: LockedDesk<L>,
    counted: &mut CountedBook<M>,
    seats: Vec<CallerSeat<L>>,
    workers: Vec<WorkerEnd<K, L, M, J>>,
) -> Result<DayReport, DayFault>
    requires tied { L.sweeps ≡ M.sweeps }
    requires order { AreInOrder (queues_of workers.items) }
    requires shared { seat_parts (seats_of workers.items) ≡ M.parts }
    requires some { 0 < M.parts }
    requires seats { seat_parts seats.items ≡ 1024 }
    ensures audited { IfOk result (λ report. (day : AuditedDay seats.items (queues_of workers.items)
        (seats_of workers.items) (Ok report)) × (counted_of day ≡ without_room counted.old)) }
    ensures placed { IfOk result (λ report. report.placed ≡ shares_of seats.items) }
    ensures only { IfErr result (λ fault. fault ≡ DayFault.OutOfMemory) }
{
    match audit_opened(alloc, desk, counted, seats, workers) {
        Ok(report) => Ok(report),
        Err(AuditFault::MismatchQueue(_)) => Err(DayFault::MismatchQueue),
        Err(AuditFault::MismatchShares) => Err(DayFault::MismatchShares),
        Err(AuditFault::MismatchPlaced) => Err(DayFault::MismatchPlaced),
        Err(AuditFault::OutOfMemory) => Err(DayFault::OutOfMemory),
    }
}
