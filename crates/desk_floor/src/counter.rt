//! The seat on which the clients of a day's page count.

ghost use Rattle.std.specs.Prelude.{◌≡◌, Some, IfErr, IfOk};
ghost use Rattle.desk_floor.specs.Release.{IsAnswered, placed_after, told};

use crate::floor::Floor;
use crate::signals::Closing;
use day_log::LineLog;
use desk_answers::Answer;
use exec_collector::Accounts;
use kept_link::Telling;
use release_lock::{CallerSeat, Run};
use std::io::Write;
use std::sync::Wait;
use std::time::Clock;
use sweep_refs::Submission;

/// A seat with one part of the run, on which the sweeps are counted that clients of the page hand in.
#[derive(Drop)]
pub struct Counter<L: Run> {
    seat: CallerSeat<L>,
    ghost one: { seat.parts ≡ 1 },
}

impl<L: Run> Counter<L> {
    /// On a seat of one part.
    pub fn new(seat: CallerSeat<L>) -> Counter<L>
        requires { seat.parts ≡ 1 }
    {
        Counter { seat }
    }

    /// Hands a sweep in on this seat, as `Floor::hand_in` does: the seat gains it where it is placed.
    pub(crate) fn hand_in<'f, 'a, M, W, J, R, C>(
        &mut self,
        rt: &'a R,
        floor: &'f Floor<L, M, W, J>,
        log: &mut LineLog<'a, R, C>,
        line: &[u8],
        submission: Submission,
    ) -> Result<Answer, Closing<'f>>
    where
        M: Accounts,
        W: Write + Drop,
        J: Telling,
        R: Wait + Clock,
        C: clock::Clock + Drop,
        ensures answer { IfOk result (IsAnswered (Some floor.now.limits) floor.now.names.items
            floor.now.manner.wants_refs submission) }
        ensures closing { IfErr result (λ shown. shown.of ≡ floor.now.signals.closing.id) }
        ensures placed { self.new.seat.placed ≡ placed_after self.old.seat.placed (told result) submission.sweep.legs }
    {
        floor.hand_in(rt, &mut self.seat, log, line, submission)
    }

    /// The seat.
    pub fn into_seat(self) -> CallerSeat<L>
        ensures value { result ≡ self.seat }
        ensures one { result.parts ≡ 1 }
    {
        self.seat
    }
}
