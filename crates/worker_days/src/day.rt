//! The day of one worker.

ghost use Rattle.std.specs.Prelude.{◌≡◌};

use crate::called_link::CalledLink;
use crate::course::Course;
use day_trial::{Caller, CallerEnd, DayFault, Outcome, Shown, day_outcome, worker_of};
use exec_collector::{Accounts, Collector};
use leg::Totals;
use link::Link;
use release_lock::{CallerSeat, ReleaseLock, Run};
use session_worker::WorkerEnd;
use std::alloc::Global;
use std::sync::Wait;
use trial::{Floor, Order, Post, Trial, TrialFault, on_floor};

/// What became of a day, what had become of the sweep before the last when that was released, and how many calls of the
/// link were made that may fail.
#[derive(Drop)]
pub struct Played {
    pub outcome: Outcome,
    pub before_last: Option<Totals>,
    pub calls: u64,
}

/// A caller that has placed the early sweep of a course, if it has orders: the gate is up for that.
pub(crate) fn early_caller<'a, R: Wait, L: Run, M: Accounts>(
    rt: &'a R,
    alloc: Global,
    lock: &'a ReleaseLock<L>,
    collector: &'a Collector<M>,
    seat: CallerSeat<L>,
    post: &Post<L, M>,
    early: &[Order],
) -> Result<Caller<'a, R, L, M>, TrialFault>
    requires tied { L.sweeps ≡ M.sweeps }
{
    let mut caller = Caller::new(rt, alloc, lock, collector, seat);
    if !early.is_empty() {
        lock.raise(rt, &post.drain)?;
        if !caller.release(early) {
            return Err(TrialFault::OutOfMemory);
        }
    }
    Ok(caller)
}

/// The end of a worker over its own link, that of the caller, and how many calls of the link were made that may fail.
fn parted<R: Wait, K: Link, L: Run, M: Accounts>(
    end: WorkerEnd<CalledLink<'_, '_, R, K, L, M>, L, M>,
) -> (WorkerEnd<K, L, M>, CallerEnd<L>, u64) {
    let WorkerEnd {
        session,
        took,
        seat,
        link,
        journal,
        reason,
    } = end;
    let (link, caller, calls) = link.into_parts();
    let end = WorkerEnd {
        session,
        took,
        seat,
        link,
        journal,
        reason,
    };
    (end, caller.into_end(), calls)
}

/// A list of one thing.
fn list_of<T: Drop>(alloc: Global, one: T) -> Result<Vec<T>, DayFault> {
    let mut list = Vec::with_capacity(alloc, 1)?;
    list.push(one)?;
    Ok(list)
}

/// What becomes of the day of a worker and a caller that have ended.
fn day_end<K: Shown, L: Run, M: Accounts>(
    rt: &impl Wait,
    alloc: Global,
    lock: ReleaseLock<L>,
    collector: Collector<M>,
    caller: CallerEnd<L>,
    end: WorkerEnd<K, L, M>,
    calls: u64,
) -> Result<Played, DayFault>
    requires tied { L.sweeps ≡ M.sweeps }
{
    let CallerEnd {
        seat,
        receipts,
        before_last,
    } = caller;
    let seats = list_of(alloc, seat)?;
    let ends = list_of(alloc, end)?;
    let outcome = day_outcome(rt, alloc, lock, collector, seats, receipts.as_slice(), ends)?;
    Ok(Played {
        outcome,
        before_last,
        calls,
    })
}

/// A day that is to be played.
#[derive(Drop)]
struct Playing<'c, K: Shown> {
    alloc: Global,
    link: K,
    course: Course<'c>,
}

impl<'c, R: Wait, K: Shown> Trial<R> for Playing<'c, K> {
    type End = Result<Played, DayFault>;

    fn run<L: Run, M: Accounts>(self, rt: &R, floor: Floor<L, M>) -> Result<Played, DayFault> {
        let Playing {
            alloc,
            link,
            course,
        } = self;
        let Floor {
            lock,
            collector,
            seat,
            mut posts,
        } = floor;
        let post = posts.pop().ok_or(TrialFault::Missing)?;
        let caller = early_caller(rt, alloc, &lock, &collector, seat, &post, course.early)?;
        let link = CalledLink::new(link, caller, post.drain.venue(), course);
        let worker = worker_of(alloc, link, course.max_number, course.pace, post)?;
        let (end, caller, calls) = parted(worker.run(rt, &lock, &collector, course.turn_limit));
        day_end(rt, alloc, lock, collector, caller, end, calls)
    }
}

/// The day of one worker over a link, as the course goes.
pub fn play_noted<K: Shown>(
    rt: &impl Wait,
    alloc: Global,
    link: K,
    course: Course<'_>,
) -> Result<Played, DayFault> {
    let playing = Playing {
        alloc,
        link,
        course,
    };
    on_floor(rt, alloc, 1, playing)?
}

/// What became of the day of one worker over a link, as the course goes.
pub fn play<K: Shown>(
    rt: &impl Wait,
    alloc: Global,
    link: K,
    course: Course<'_>,
) -> Result<Outcome, DayFault> {
    Ok(play_noted(rt, alloc, link, course)?.outcome)
}
