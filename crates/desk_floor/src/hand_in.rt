//! A sweep is handed in, and answered.

ghost use Rattle.std.specs.Prelude.{◌≡◌, ◌≢◌, ◌+◌, ◌⊎◌, None, Some, slice_get, option_map, IfErr, IfNone, IfOk, IfSome};
ghost use Rattle.desk_floor.specs.Release.{IsAnswered, IsAnsweredUnder, IsFree, IsReleased, IsUnwritten, answer_of};
ghost use Rattle.desk_floor.specs.Release.{declined_refusal, excess_refusal, placed_after, placed_shares, refusal_of};
ghost use Rattle.desk_floor.specs.Release.{told};

use crate::asking::asked_now;
use crate::floor::Floor;
use crate::signals::Closing;
use day_log::{LineLog, moment};
use desk_answers::{Answer, Refusal};
use desk_words::VenueName;
use exec_collector::Accounts;
use kept_link::Telling;
use leg::{Routed, Sweep, VenueId};
use order_limits::Excess;
use release_lock::{Asked, CallerSeat, Declined, Run};
use std::io::Write;
use std::sync::Wait;
use std::time::Clock;
use sweep_refs::Submission;
use sweep_release::{Receipt, ReleaseFault};

/// How many venues there may be.
const VENUES: usize = 16;

/// The name of a venue, if the desk has it.
fn name_of(names: &[VenueName], venue: VenueId) -> Option<VenueName>
    ensures { result ≡ slice_get names.now venue }
{
    let name = names.get(usize::from(venue.number()))?;
    Some(name.clone().unwrap())
}

/// Why a sweep isn't placed, with the name of the venue that is to blame.
fn refusal_of(names: &[VenueName], fault: ReleaseFault) -> Refusal
    ensures { result ≡ refusal_of names.now fault }
{
    match fault {
        ReleaseFault::Empty => Refusal::NoLegs,
        ReleaseFault::TooManyLegs => Refusal::TooManyLegs,
        ReleaseFault::UnknownVenue(_) => Refusal::UnknownVenue,
        ReleaseFault::GateShut(venue) => match name_of(names, venue) {
            Some(name) => Refusal::GateDown(name),
            None => Refusal::UnknownVenue,
        },
        ReleaseFault::BacklogFull(venue) => match name_of(names, venue) {
            Some(name) => Refusal::BacklogFull(name),
            None => Refusal::UnknownVenue,
        },
        ReleaseFault::SweepsSpent => Refusal::SweepsSpent,
        ReleaseFault::OutOfMemory => Refusal::OutOfMemory,
        ReleaseFault::WrongBook => Refusal::WrongBook,
    }
}

/// That a sweep is over a limit, with the name of the venue that is to blame, if one is.
fn excess_refusal(names: &[VenueName], excess: Excess) -> Refusal
    ensures { result ≡ excess_refusal names.now excess }
{
    let Excess { venue, over } = excess;
    let venue = match venue {
        Some(venue) => name_of(names, venue),
        None => None,
    };
    Refusal::OverLimit { venue, over }
}

/// Why a sweep is declined.
fn declined_refusal(names: &[VenueName], why: Declined) -> Refusal
    ensures { result ≡ declined_refusal names.now why }
{
    match why {
        Declined::Over(excess) => excess_refusal(names, excess),
        Declined::Fault(fault) => refusal_of(names, fault),
    }
}

/// The answer to a sweep that was released, or declined.
fn answer_of(names: &[VenueName], done: Result<Receipt, Declined>) -> Answer
    ensures { result ≡ answer_of names.now done }
{
    match done {
        Ok(receipt) => Answer::Placed {
            sweep: receipt.number,
            shares: receipt.shares,
        },
        Err(why) => Answer::Refused(declined_refusal(names, why)),
    }
}

/// For each number of a venue, whether one of these legs is for it.
fn venues_of(legs: &[Routed]) -> [bool; VENUES] {
    let mut marks = [false; VENUES];
    for routed in legs {
        marks[usize::from(routed.venue.number())] = true;
    }
    marks
}

impl<L: Run, M: Accounts, W: Write + Drop, J: Telling> Floor<L, M, W, J> {
    /// Hands a sweep in that this line asks for, for a caller who counts on this seat, and answers with what became of
    /// it; or shows that the day is closing. A sweep is judged by the day's limits before anything is placed. The seat
    /// gains the sweep under the number that is answered, and else nothing. Under a reference a sweep is placed at most
    /// once: these legs again are answered as the first time, also where the day is closing, and others are refused.
    /// The line and its answer stand behind one another in the log. It may wait for the locks; once those of the desk
    /// and the book are given up it wakes the workers of the sweep's venues.
    pub fn hand_in<'a, R: Wait + Clock, C: clock::Clock + Drop>(
        &self,
        rt: &'a R,
        seat: &mut CallerSeat<L>,
        log: &mut LineLog<'a, R, C>,
        line: &[u8],
        submission: Submission,
    ) -> Result<Answer, Closing<'_>>
        ensures answer { IfOk result (IsAnswered (Some self.now.limits) self.now.names.items
            self.now.manner.wants_refs submission) }
        ensures closing { IfErr result (λ shown. shown.of ≡ self.now.signals.closing.id) }
        ensures parts { seat.new.parts ≡ seat.old.parts }
        ensures counted { seat.new.shares
            ≡ seat.old.shares + placed_shares (told result) submission.sweep.legs }
        ensures placed { seat.new.placed ≡ placed_after seat.old.placed (told result) submission.sweep.legs }
    {
        let _turn = self.turn.lock(rt);
        log.taken(line);
        let answered = match self.signals.closing() {
            Some(shown) => self.repeated(rt, &submission).ok_or(shown),
            None => Ok(self.place(rt, seat, &asked_now(rt, line, &self.limits), submission)),
        };
        match &answered {
            Ok(answer) => self.note_answer(rt, log, answer),
            Err(_) => self.note_answer(rt, log, &Answer::Closing),
        }
        answered
    }

    /// The answer to a sweep that was placed before, under the reference that it has.
    fn repeated(&self, rt: &impl Wait, submission: &Submission) -> Option<Answer>
        ensures answer { IfSome result (IsAnswered (Some self.now.limits) self.now.names.items
            self.now.manner.wants_refs submission.now) }
        ensures nothing { IfSome result (λ answer. placed_shares answer submission.now.sweep.legs ≡ 0) }
        ensures none { IfSome result (λ answer. (placed : _)
            → placed_after placed answer submission.now.sweep.legs ≡ placed) }
        ensures free { IfNone result (IsFree submission.now.reference) }
    {
        let reference = submission.reference.as_ref()?;
        self.refs
            .lock(rt)
            .answer(reference, submission.sweep.legs.as_slice())
    }

    /// Places a sweep, under its reference if it has one, and answers with what became of it.
    fn place<R: Wait + Clock>(
        &self,
        rt: &R,
        seat: &mut CallerSeat<L>,
        asked: &Asked<'_>,
        submission: Submission,
    ) -> Answer
        ensures answer { IsAnswered (option_map (λ l. l.now) asked.now.limits) self.now.names.items
            self.now.manner.wants_refs submission result }
        ensures parts { seat.new.parts ≡ seat.old.parts }
        ensures counted { seat.new.shares ≡ seat.old.shares + placed_shares result submission.sweep.legs }
        ensures placed { seat.new.placed ≡ placed_after seat.old.placed result submission.sweep.legs }
    {
        let Submission { reference, sweep } = submission;
        match reference {
            Some(reference) => self
                .refs
                .lock(rt)
                .place(rt, self, seat, asked, reference, sweep),
            None => self.place_bare(rt, seat, asked, sweep),
        }
    }

    /// Places a sweep that has no reference, where the desk takes such ones.
    fn place_bare<R: Wait + Clock>(
        &self,
        rt: &R,
        seat: &mut CallerSeat<L>,
        asked: &Asked<'_>,
        sweep: Sweep,
    ) -> Answer
        ensures answer { IsAnsweredUnder (option_map (λ l. l.now) asked.now.limits) self.now.names.items
            self.now.manner.wants_refs None sweep.legs result }
        ensures parts { seat.new.parts ≡ seat.old.parts }
        ensures counted { seat.new.shares ≡ seat.old.shares + placed_shares result sweep.legs }
        ensures placed { seat.new.placed ≡ placed_after seat.old.placed result sweep.legs }
    {
        if self.manner.wants_refs {
            return Answer::Refused(Refusal::NoReference);
        }
        self.release(rt, seat, asked, sweep)
    }

    /// Notes an answer to a sweep in the log, and a refusal among the refusals, and tells that there is news.
    fn note_answer<'a, R: Wait, C: clock::Clock + Drop>(
        &self,
        rt: &'a R,
        log: &mut LineLog<'a, R, C>,
        answer: &Answer,
    ) {
        log.answered(answer);
        self.refusals.note(rt, answer);
        self.bells.news().tell();
    }

    /// Hands a sweep in for a client of the page, who has no seat of their own, as `hand_in` does. Where the day has no
    /// page it answers that it is closing.
    pub fn hand_in_shared<'a, R: Wait + Clock, C: clock::Clock + Drop>(
        &self,
        rt: &'a R,
        log: &mut LineLog<'a, R, C>,
        line: &[u8],
        submission: Submission,
    ) -> Answer
        ensures { result ≢ Answer.Closing
            → IsAnswered (Some self.now.limits) self.now.names.items self.now.manner.wants_refs submission result }
    {
        match &self.shared {
            Some(counter) => match counter.lock(rt).hand_in(rt, self, log, line, submission) {
                Ok(answer) => answer,
                Err(_) => Answer::Closing,
            },
            None => Answer::Closing,
        }
    }

    /// Answers a sweep for whose line there is no memory, so that no journal could have it: as it was placed before,
    /// under its reference, and else it is refused. In the log its line is empty.
    pub fn answer_unwritten<'a, R: Wait, C: clock::Clock + Drop>(
        &self,
        rt: &'a R,
        log: &mut LineLog<'a, R, C>,
        submission: &Submission,
    ) -> Answer
        ensures { IsAnswered (Some self.now.limits) self.now.names.items self.now.manner.wants_refs submission.now
            result ⊎ IsUnwritten submission.now result }
    {
        let _turn = self.turn.lock(rt);
        log.taken(b"");
        let answer = match self.repeated(rt, submission) {
            Some(answer) => answer,
            None => Answer::Refused(Refusal::OutOfMemory),
        };
        self.note_answer(rt, log, &answer);
        answer
    }

    /// Releases a sweep for a caller who counts on this seat, and answers with what became of that.
    pub(crate) fn release<R: Wait + Clock>(
        &self,
        rt: &R,
        seat: &mut CallerSeat<L>,
        asked: &Asked<'_>,
        sweep: Sweep,
    ) -> Answer
        ensures answer { IsReleased (option_map (λ l. l.now) asked.now.limits) self.now.names.items sweep.legs result }
        ensures parts { seat.new.parts ≡ seat.old.parts }
        ensures counted { seat.new.shares ≡ seat.old.shares + placed_shares result sweep.legs }
        ensures placed { seat.new.placed ≡ placed_after seat.old.placed result sweep.legs }
    {
        let now = moment(rt);
        let venues = venues_of(sweep.legs.as_slice());
        self.begin_waits(&venues, now);
        let done = self
            .lock
            .release_asked(rt, &self.collector, sweep, seat, asked);
        match &done {
            Ok(receipt) => {
                self.signals.count_placed(receipt.shares);
                self.bells.ring(&venues);
            }
            Err(_) => self.end_waits(&venues, now),
        }
        answer_of(self.names.as_slice(), done)
    }

    /// Orders for these venues are handed in at this moment.
    fn begin_waits(&self, venues: &[bool; VENUES], now: u64) {
        for (view, is_for) in self.views.iter().zip(venues.iter()) {
            if *is_for {
                view.traffic().order_times().begin(now);
            }
        }
    }

    /// The orders for these venues that were handed in at this moment are refused.
    fn end_waits(&self, venues: &[bool; VENUES], now: u64) {
        for (view, is_for) in self.views.iter().zip(venues.iter()) {
            if *is_for {
                view.traffic().order_times().refuse(now);
            }
        }
    }
}
