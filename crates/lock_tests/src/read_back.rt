//! What was released is read back from desk, book and ring.

ghost use Rattle.std.specs.Prelude.{◌≡◌};

use crate::desk::{last_sweep, pops_to, received, releases};
use crate::orders::sweep;
use crate::reports::{report, trade};
use dialect::{Note, ReportKind};
use exec_collector::{Accounts, Collector, Unbooked, WorkerSeat};
use leg::Totals;
use release_lock::{CallerSeat, ReleaseLock, Run, VenueDrain};
use report_words::ReportWords;
use share_ledger::{Applied, Book};
use std::alloc::Global;
use std::sync::Wait;
use std::test::Fail;
use sweep_release::{Desk, ReleaseFault};

/// What desk and book have.
#[derive(Clone, Copy, PartialEq, Eq)]
struct Kept {
    entries: usize,
    placed: u64,
    legs: usize,
    first: Option<Totals>,
    second: Option<Totals>,
}

fn kept_in<L: Run, M: Accounts>(
    rt: &impl Wait,
    lock: &ReleaseLock<L>,
    collector: &Collector<M>,
) -> Kept {
    let (entries, placed, legs) = lock.with(rt, |desk: &mut Desk| last_sweep(desk));
    Kept {
        entries,
        placed,
        legs,
        first: collector.totals(rt, 1),
        second: collector.totals(rt, 2),
    }
}

/// A sweep of which nothing has moved.
fn open(shares: u64) -> Option<Totals> {
    Some(Totals {
        filled: 0,
        busted: 0,
        cancelled: 0,
        withdrawn: 0,
        still_open: shares,
    })
}

/// Ten shares, of which four were traded and the rest was cancelled.
const ENDED: Option<Totals> = Some(Totals {
    filled: 4,
    busted: 0,
    cancelled: 6,
    withdrawn: 0,
    still_open: 0,
});

/// Whether a trade and its end are booked, and the same trade again is listed.
fn trades<L: Run, M: Accounts>(
    rt: &impl Wait,
    collector: &Collector<M>,
    drain: &VenueDrain<L>,
    worker: &mut WorkerSeat<M>,
) -> Result<bool, Fail> {
    let trade = trade(1, b"E", 4)?;
    let end = report(1, b"F", ReportKind::Canceled)?;
    let words = ReportWords::none();
    for (note, wanted) in [
        (&trade, Applied::Moved),
        (&trade, Applied::Duplicate),
        (&end, Applied::Moved),
    ] {
        if collector.apply(rt, note, &words, worker) != Ok(wanted) {
            return Ok(false);
        }
    }
    Ok(collector.read_all(rt, |_: &Book, unbooked: &[Unbooked]| {
        is_left(unbooked, &trade)
    }))
}

/// Whether this note alone wasn't taken: it had been booked behind the first sweep.
fn is_left(unbooked: &[Unbooked], note: &Note) -> bool {
    match unbooked {
        [one] => {
            one.venue.number() == 0
                && one.note == *note
                && one.answer == Applied::Duplicate
                && one.entries == 2
        }
        _ => false,
    }
}

/// Whether the next legs are in the ring with no pump, up to so many in all, and no other.
fn are_popped<L: Run>(rt: &impl Wait, drain: &mut VenueDrain<L>, count: u64) -> bool {
    pops_to(rt, drain, count) && drain.pop(rt).is_none()
}

/// Behind a gate that is down a sweep is refused. Once it is up, one is released, and traded; and then another.
pub(crate) fn reads_back<L: Run, M: Accounts>(
    rt: &impl Wait,
    alloc: Global,
    lock: &ReleaseLock<L>,
    collector: &Collector<M>,
    seat: &mut CallerSeat<L>,
    drain: &mut VenueDrain<L>,
    worker: &mut WorkerSeat<M>,
) -> Result<(), Fail>
    requires tied { L.sweeps ≡ M.sweeps }
{
    let down = Err(ReleaseFault::GateShut(drain.venue()));
    let one = sweep(alloc, &[(0, 10)])?;
    releases(rt, lock, collector, seat, one, down, 0)?;
    lock.raise(rt, drain)?;
    first_sweep(rt, alloc, lock, collector, seat, drain)?;
    if !trades(rt, collector, drain, worker)? {
        return Err(Fail::from("a trade and the end"));
    }
    second_sweep(rt, alloc, lock, collector, seat, drain)
}

/// One leg of ten.
fn first_sweep<L: Run, M: Accounts>(
    rt: &impl Wait,
    alloc: Global,
    lock: &ReleaseLock<L>,
    collector: &Collector<M>,
    seat: &mut CallerSeat<L>,
    drain: &mut VenueDrain<L>,
) -> Result<(), Fail>
    requires tied { L.sweeps ≡ M.sweeps }
{
    let one = sweep(alloc, &[(0, 10)])?;
    releases(rt, lock, collector, seat, one, received(1, 10), 10)?;
    let wanted = Kept {
        entries: 3,
        placed: 10,
        legs: 1,
        first: open(10),
        second: None,
    };
    if kept_in(rt, lock, collector) != wanted || !are_popped(rt, drain, 1) {
        return Err(Fail::from("the first sweep"));
    }
    Ok(())
}

/// Legs of ten and 20, behind the first one's end.
fn second_sweep<L: Run, M: Accounts>(
    rt: &impl Wait,
    alloc: Global,
    lock: &ReleaseLock<L>,
    collector: &Collector<M>,
    seat: &mut CallerSeat<L>,
    drain: &mut VenueDrain<L>,
) -> Result<(), Fail>
    requires tied { L.sweeps ≡ M.sweeps }
{
    let two = sweep(alloc, &[(0, 10), (0, 20)])?;
    releases(rt, lock, collector, seat, two, received(2, 30), 40)?;
    let wanted = Kept {
        entries: 6,
        placed: 40,
        legs: 2,
        first: ENDED,
        second: open(30),
    };
    if kept_in(rt, lock, collector) != wanted || !are_popped(rt, drain, 3) {
        return Err(Fail::from("the second sweep"));
    }
    Ok(())
}
