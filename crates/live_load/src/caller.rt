//! A caller of a day.

ghost use Rattle.std.specs.Prelude.{◌≡◌, ◌+◌, ◌≤◌, length, if◌then◌else◌, IfOk};
ghost use Rattle.std.specs.List.{All};
ghost use Rattle.exec_collector.specs.Seats.{parts_of};
ghost use Rattle.live_load.specs.Day.{caller_of, left_of, shares_each, Called};

use crate::LivePlan;
use crate::order::one_sweep;
use crate::watch::Running;
use clock::UtcClock;
use day_log::LineLog;
use desk_answers::Answer;
use desk_floor::Floor;
use exec_collector::Accounts;
use release_lock::{CallerSeat, Run};
use std::alloc::{AllocError, Global};
use std::io::Write;
use std::sync::Wait;
use std::thread;
use std::time::{Clock, Duration};
use sweep_refs::Submission;

/// How many milliseconds a caller waits before it tries a refused sweep again.
const WAIT_MILLIS: u64 = 1;

/// What a caller gives back: its seat, and how many of its sweeps it gave up.
#[derive(Drop)]
pub struct CallerEnd<L: Run> {
    pub seat: CallerSeat<L>,
    pub unplaced: u64,
}

/// A caller hands its sweeps in, one after the other. Each is tried again while it is refused, as often as the plan
/// says; then it is given up.
pub fn call<L: Run, M: Accounts, W: Write + Drop, R: Wait + Clock>(
    rt: &R,
    alloc: Global,
    floor: &Floor<L, M, W>,
    running: &Running,
    plan: LivePlan,
    seat: CallerSeat<L>,
) -> CallerEnd<L>
    ensures { Called (caller_of plan seat) (left_of result.seat result.unplaced) }
{
    let mut seat = seat;
    let mut log = LineLog::new(rt, alloc, UtcClock::new(rt), None);
    let mut unplaced = 0;
    for _ in 0..plan.sweeps {
        if !places(rt, alloc, floor, plan, &mut seat, &mut log) {
            unplaced += 1;
        }
    }
    running.end_one();
    CallerEnd { seat, unplaced }
}

/// Tries a sweep until it is placed, and says whether it was.
fn places<'a, L: Run, M: Accounts, W: Write + Drop, R: Wait + Clock>(
    rt: &'a R,
    alloc: Global,
    floor: &Floor<L, M, W>,
    plan: LivePlan,
    seat: &mut CallerSeat<L>,
    log: &mut LineLog<'a, R, UtcClock<'a, R>>,
) -> bool
    ensures parts { seat.new.parts ≡ seat.old.parts }
    ensures shares { seat.new.shares
        ≡ (if result then seat.old.shares + shares_each plan else seat.old.shares) }
{
    for _ in 0..plan.turns {
        if floor.signals.is_closing() {
            return false;
        }
        if hands_in(rt, alloc, floor, plan, seat, log) {
            return true;
        }
        thread::sleep(rt, Duration::from_millis(WAIT_MILLIS));
    }
    false
}

/// Tries a sweep once, and says whether it was placed.
#[tactic(auto, using(crate::proofs::Orders::orders_shares))]
fn hands_in<'a, L: Run, M: Accounts, W: Write + Drop, R: Wait + Clock>(
    rt: &'a R,
    alloc: Global,
    floor: &Floor<L, M, W>,
    plan: LivePlan,
    seat: &mut CallerSeat<L>,
    log: &mut LineLog<'a, R, UtcClock<'a, R>>,
) -> bool
    ensures parts { seat.new.parts ≡ seat.old.parts }
    ensures shares { seat.new.shares
        ≡ (if result then seat.old.shares + shares_each plan else seat.old.shares) }
{
    let Some(sweep) = one_sweep(alloc, plan.venues) else {
        return false;
    };
    let submission = Submission {
        reference: None,
        sweep,
    };
    let Ok(answer) = floor.hand_in(rt, seat, log, b"", submission) else {
        return false;
    };
    match answer {
        Answer::Placed { .. } => true,
        Answer::Again { .. } => false,
        Answer::Refused(_) => false,
        Answer::Closing => false,
        Answer::BadLine { .. } => false,
    }
}

/// The seats of so many callers, with all parts of the first.
pub fn split_seats<L: Run>(
    alloc: Global,
    seat: CallerSeat<L>,
    callers: u8,
) -> Result<Vec<CallerSeat<L>>, AllocError>
    requires first { (seat.parts ≡ 1024) × (seat.shares ≡ 0) }
    requires callers { (1 ≤ callers) × (callers ≤ 64) }
    ensures { IfOk result (λ seats. (length seats.items ≡ callers) × (parts_of seats.items ≡ 1024)
        × All (λ s. s.shares ≡ 0) seats.items) }
{
    let mut seat = seat;
    let mut seats = Vec::new(alloc);
    for _ in 1..callers {
        seats.push(seat.split().unwrap())?;
    }
    seats.push(seat)?;
    Ok(seats)
}
