//! A desk's day, as its clients ask it.

ghost use Rattle.std.specs.Prelude.{◌≡◌, ⊤, Some, IfOk, filter_map, length};
ghost use Rattle.std.specs.Option.{IsSomeAnd};
ghost use Rattle.desk_floor.specs.Release.{IsNumber};
ghost use Rattle.desk_serve.specs.Answered.{IsAnswered, outcome_of};
ghost use Rattle.desk_serve.specs.Executions.{IsExecutions};
ghost use Rattle.desk_serve.specs.Shown.{AreAll, AreShown, IsPage, IsSums, IsSweep};

use crate::page::Page;
use crate::shown::{leg_rows, sweeps_behind, venue_rows};
use clock::UtcClock;
use day_log::LineLog;
use desk_answers::{Answer, Refusal};
use desk_floor::{Closing, Floor, sweep_legs};
use desk_http::{Day, DaySums, ProcessUse, RefusalCounts, Stopped};
use desk_json::{ExecutionsPage, LegRow, Outcome, SweepLegs, SweepsPage, VenueRow};
use desk_words::VenueName;
use exec_collector::Accounts;
use kept_link::Telling;
use release_lock::Run;
use std::alloc::{AllocError, Global};
use std::io::Write;
use std::sync::Wait;
use std::time::Clock;
use sweep_refs::{Submission, SweepRef};
use sweep_text::write_sweep;

/// A desk's day, as its clients ask it.
#[derive(Drop)]
pub(crate) struct DayView<'a, L: Run, M: Accounts, W: Write + Drop, J: Telling, R: Wait + Clock> {
    rt: &'a R,
    alloc: Global,
    floor: &'a Floor<L, M, W, J>,
    page: &'a Page,
    clock: UtcClock<'a, R>,
    log: LineLog<'a, R, UtcClock<'a, R>>,
    /// What shows that the day is closing, once the client had it closed.
    closing: Option<Closing<'a>>,
}

/// An answer, as it is told over HTTP.
fn outcome_of(answer: Answer) -> Outcome
    ensures { result ≡ outcome_of answer }
{
    match answer {
        Answer::Placed { sweep, shares } => Outcome::Placed { sweep, shares },
        Answer::Again { sweep, shares } => Outcome::Again { sweep, shares },
        Answer::Refused(refusal) => Outcome::Refused(refusal),
        Answer::Closing => Outcome::Closing,
        Answer::BadLine { .. } => Outcome::Refused(Refusal::OutOfMemory),
    }
}

/// The legs of the sweep of this number, if there are any.
fn shown(number: u64, legs: Vec<LegRow>) -> Option<SweepLegs>
    ensures { AreShown number legs.items result }
{
    if legs.is_empty() {
        return None;
    }
    Some(SweepLegs {
        sweep: number,
        legs,
    })
}

impl<'a, L: Run, M: Accounts, W: Write + Drop, J: Telling, R: Wait + Clock> DayView<
    'a,
    L,
    M,
    W,
    J,
    R,
> {
    /// The day as clients ask it. The only refusal is out of memory.
    pub fn new(
        rt: &'a R,
        alloc: Global,
        floor: &'a Floor<L, M, W, J>,
        page: &'a Page,
    ) -> Result<DayView<'a, L, M, W, J, R>, AllocError> {
        Ok(DayView {
            rt,
            alloc,
            floor,
            page,
            clock: UtcClock::new(rt),
            log: LineLog::new(rt, alloc, UtcClock::new(rt), floor.line_log()?),
            closing: None,
        })
    }

    /// Logs what a client asked for as the line that asks for it, and never between a sweep's line and its answer.
    fn note_line(&mut self, line: &[u8], by: Option<usize>) {
        let _turn = self.floor.turn.lock(self.rt);
        self.log.speak_for(self.page.user_name(by));
        self.log.taken(line);
    }

    /// The executions behind a number, at most so many. It may wait for locks. The only refusal is out of memory.
    fn executions_behind(&self, after: u64, most: u64) -> Result<ExecutionsPage, AllocError>
        ensures { IfOk result (IsExecutions self.now.floor.now.names.items after most) }
    {
        let names = self.floor.names.as_slice();
        self.page.executions(
            self.rt,
            self.alloc,
            names,
            &self.floor.collector,
            after,
            most,
        )
    }
}

impl<'a, L: Run, M: Accounts, W: Write + Drop, J: Telling, R: Wait + Clock> Day
    for DayView<'a, L, M, W, J, R> {
    ghost venue_names = { λ day. day.floor.now.names.items };

    ghost places = { λ day submission _ outcome _.
        IsAnswered (Some day.floor.now.limits) day.floor.now.names.items day.floor.now.manner.wants_refs submission
        outcome };

    ghost pages = { λ _ after most page _. IsPage after most page };

    ghost finds = { λ _ reference number. IsNumber reference number };

    ghost shows = { λ day number shown _.
        IsSweep day.floor.now.names.items (length day.floor.now.views.items) number shown };

    ghost reports = { λ day after most page _. IsExecutions day.floor.now.names.items after most page };

    ghost lists = { λ day rows _. AreAll day.floor.now.names.items (length day.floor.now.views.items) rows };

    ghost sums_up = { λ _ sums _. IsSums sums };

    ghost refuses = { λ _ _. ⊤ };

    ghost guesses = { λ _ _. ⊤ };

    ghost uses = { λ _ _. ⊤ };

    ghost closes = { λ old _ new. IsSomeAnd new.closing (λ shown. shown.of ≡ old.floor.now.signals.closing.id) };

    ghost halts = { λ _ _ _ _. ⊤ };

    ghost resumes = { λ _ _ _ _. ⊤ };

    fn names(&self) -> &[VenueName] {
        self.floor.names.as_slice()
    }

    fn place(&mut self, submission: Submission, by: Option<usize>) -> Outcome {
        self.log.speak_for(self.page.user_name(by));
        let names = self.floor.names.as_slice();
        let legs = submission.sweep.legs.as_slice();
        let answer = match write_sweep(self.alloc, names, submission.reference.as_ref(), legs) {
            Ok(line) => self
                .floor
                .hand_in_shared(self.rt, &mut self.log, line.as_bytes(), submission),
            Err(_) => self
                .floor
                .answer_unwritten(self.rt, &mut self.log, &submission),
        };
        outcome_of(answer)
    }

    fn find(&self, reference: &SweepRef) -> Option<u64> {
        self.floor.find(self.rt, reference)
    }

    fn sweeps(&mut self, after: u64, most: u64) -> Result<SweepsPage, AllocError> {
        Ok(SweepsPage {
            sweeps: sweeps_behind(self.rt, self.alloc, &self.floor.collector, after, most)?,
            day: self.floor.totals(self.rt),
            is_closing: self.floor.signals.is_closing(),
        })
    }

    fn sweep(&mut self, number: u64) -> Result<Option<SweepLegs>, AllocError> {
        let legs = sweep_legs(self.rt, self.alloc, self.floor, number)?;
        let rows = leg_rows(self.alloc, self.floor.names.as_slice(), legs)?;
        Ok(shown(number, rows))
    }

    fn executions(&mut self, after: u64, most: u64) -> Result<ExecutionsPage, AllocError> {
        self.executions_behind(after, most)
    }

    fn venues(&mut self) -> Result<Vec<VenueRow>, AllocError> {
        venue_rows(self.rt, &self.clock, self.alloc, self.floor)
    }

    fn sums(&mut self) -> Result<DaySums, AllocError> {
        Ok(DaySums {
            sweeps: self.floor.sweeps(self.rt),
            placed: self.floor.signals.placed(),
            parts: self.page.parts(self.rt, &self.floor.collector)?,
        })
    }

    fn refusals(&self) -> RefusalCounts {
        let counts = self.floor.refusals.counts(self.rt);
        RefusalCounts {
            no_legs: counts.no_legs,
            too_many_legs: counts.too_many_legs,
            unknown_venue: counts.unknown_venue,
            gate_down: counts.gate_down,
            backlog_full: counts.backlog_full,
            sweeps_spent: counts.sweeps_spent,
            out_of_memory: counts.out_of_memory,
            wrong_book: counts.wrong_book,
            other_legs: counts.other_legs,
            no_reference: counts.no_reference,
            leg_shares: counts.leg_shares,
            leg_dollars: counts.leg_dollars,
            sweep_dollars: counts.sweep_dollars,
            day_dollars: counts.day_dollars,
            other_symbol: counts.other_symbol,
            closing: counts.closing,
        }
    }

    fn wrong_tokens(&self) -> u64 {
        self.page.wrong_tokens(self.rt)
    }

    fn process_use(&self) -> Option<ProcessUse> {
        self.page.process_use()
    }

    fn close(&mut self, by: Option<usize>) {
        self.log.speak_for(self.page.user_name(by));
        self.log.closed();
        self.closing = Some(self.floor.ask_to_close(self.rt));
    }

    fn halt(&mut self, by: Option<usize>) -> Stopped {
        let stopped = self.floor.halt(self.rt);
        self.note_line(b"halt", by);
        Stopped {
            is_sending: stopped.sending.is_some(),
            is_kept: stopped.is_kept,
        }
    }

    fn resume(&mut self, by: Option<usize>) -> bool {
        let is_kept = self.floor.resume(self.rt);
        self.note_line(b"resume", by);
        is_kept
    }

    fn may_follow(&mut self) -> bool {
        self.page.begin_following()
    }
}
