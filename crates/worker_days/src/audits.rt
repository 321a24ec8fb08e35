//! What an audit says of a day whose two workers dropped a leg each, and of the same day with something missing.

ghost use Rattle.std.specs.Prelude.{◌≡◌};

use crate::worked::COURSE;
use day_trial::{Caller, CallerEnd, DayFault, Script, worker_of};
use exec_collector::{Accounts, Collector};
use release_lock::{CallerSeat, ReleaseLock, Run};
use session_worker::{AuditFault, DayReport, WorkerEnd, audit, shut_gate};
use std::alloc::Global;
use std::fmt::Write;
use std::sync::Wait;
use trial::{Floor, Order, Post, TEN, Trial, TrialFault, on_floor};

/// What is handed to the audit.
#[derive(Clone, Copy, Debug)]
enum Left {
    Everything,
    /// The ends in the wrong order.
    Swapped,
    /// The first end alone.
    FirstEnd,
    /// No caller's seat.
    NoSeat,
}

/// A leg of ten for each of two venues.
const BOTH: [Order; 2] = [TEN, Order { venue: 1, ..TEN }];

/// How many turns a worker takes at most. It closes in the first, which finds its gate shut.
const MOST_TURNS: u64 = 10;

/// What a worker gives back that closes in its first turn, and drops what was placed at its venue.
fn drops<L: Run, M: Accounts>(
    rt: &impl Wait,
    alloc: Global,
    lock: &ReleaseLock<L>,
    collector: &Collector<M>,
    post: Post<L, M>,
) -> Result<WorkerEnd<Script, L, M>, DayFault> {
    let link = Script::new(alloc, &[])?;
    let worker = worker_of(alloc, link, COURSE.max_number, COURSE.pace, post)?;
    Ok(worker.run(rt, lock, collector, MOST_TURNS))
}

/// The ends of all workers, in the order of their venues.
fn all_drop<L: Run, M: Accounts>(
    rt: &impl Wait,
    alloc: Global,
    lock: &ReleaseLock<L>,
    collector: &Collector<M>,
    posts: Vec<Post<L, M>>,
) -> Result<Vec<WorkerEnd<Script, L, M>>, DayFault> {
    let mut ends = Vec::with_capacity(alloc, posts.len())?;
    for post in posts {
        shut_gate(rt, lock, post.drain.venue());
        ends.push(drops(rt, alloc, lock, collector, post)?)?;
    }
    Ok(ends)
}

/// The seat of a caller that released a leg to each of two venues.
fn releases<L: Run, M: Accounts>(
    rt: &impl Wait,
    alloc: Global,
    lock: &ReleaseLock<L>,
    collector: &Collector<M>,
    seat: CallerSeat<L>,
) -> Result<CallerSeat<L>, DayFault>
    requires tied { L.sweeps ≡ M.sweeps }
{
    let mut caller = Caller::new(rt, alloc, lock, collector, seat);
    if !caller.release(&BOTH) {
        return Err(DayFault::Trial(TrialFault::Refused));
    }
    let CallerEnd { seat, .. } = caller.into_end();
    Ok(seat)
}

/// The callers' seats that are left.
fn seats_left<L: Run>(
    alloc: Global,
    seat: CallerSeat<L>,
    left: Left,
) -> Result<Vec<CallerSeat<L>>, DayFault> {
    let mut seats = Vec::new(alloc);
    match left {
        Left::NoSeat => {}
        Left::Everything | Left::Swapped | Left::FirstEnd => seats.push(seat)?,
    }
    Ok(seats)
}

/// The ends that are left.
fn ends_left<L: Run, M: Accounts>(
    ends: Vec<WorkerEnd<Script, L, M>>,
    left: Left,
) -> Vec<WorkerEnd<Script, L, M>> {
    let mut ends = ends;
    match left {
        Left::Swapped => ends.reverse(),
        Left::FirstEnd => {
            let _second = ends.pop();
        }
        Left::Everything | Left::NoSeat => {}
    }
    ends
}

/// A day of two venues, and what is handed to its audit.
#[derive(Drop)]
struct Audited {
    alloc: Global,
    left: Left,
}

impl<R: Wait> Trial<R> for Audited {
    /// What the audit tells.
    type End = Result<Result<DayReport, AuditFault>, DayFault>;

    fn run<L: Run, M: Accounts>(
        self,
        rt: &R,
        floor: Floor<L, M>,
    ) -> Result<Result<DayReport, AuditFault>, DayFault> {
        let Audited { alloc, left } = self;
        let Floor {
            lock,
            collector,
            seat,
            posts,
        } = floor;
        for post in posts.iter() {
            lock.raise(rt, &post.drain).map_err(TrialFault::from)?;
        }
        let seat = releases(rt, alloc, &lock, &collector, seat)?;
        let seats = seats_left(alloc, seat, left)?;
        let ends = all_drop(rt, alloc, &lock, &collector, posts)?;
        Ok(audit(alloc, lock, collector, seats, ends_left(ends, left)))
    }
}

/// Audits the day with all that is left of it, and with something missing.
pub fn tell_audits(rt: &impl Wait, alloc: Global, text: &mut String) -> Result<(), DayFault> {
    for left in [
        Left::Everything,
        Left::Swapped,
        Left::FirstEnd,
        Left::NoSeat,
    ] {
        let told = on_floor(rt, alloc, 2, Audited { alloc, left })??;
        writeln!(text, "audit of {left:?}: {told:?}")?;
    }
    Ok(())
}
