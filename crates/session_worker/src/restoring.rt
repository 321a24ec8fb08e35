//! A worker that goes on from the lines of its journal.

ghost use Rattle.std.specs.Prelude.{◌≡◌, ◌↔◌, [], ◌∷◌, length, min, IsTrue, OnOk};
ghost use Rattle.fix_text.specs.Reading.{fields_of};
ghost use Rattle.dialect.specs.Wording.{Decoding};
ghost use Rattle.resend.specs.Window.{window};
ghost use Rattle.release_lock.specs.Held.{OnlyLowers};
ghost use Rattle.release_lock.specs.Locked.{Replays};
ghost use Rattle.session_core.specs.Session.{new_session};
ghost use Rattle.session_core.specs.Calling.{broken};
ghost use Rattle.session_core.specs.declared.session_call.SessionCall.TheVariants as call;
ghost use Rattle.session_worker.specs.Events.WorkerEvent.{Calls};
ghost use Rattle.session_worker.specs.Keeping.{call_of, heard_call, leg_event};
ghost use Rattle.session_worker.specs.Taking.{Raises};
ghost use Rattle.session_worker.specs.Restoring.{AsksFor, CarriesOutAgain, Follows, Redoes, RedoesLine, TakesMore, new_start, worker_from};

use crate::reading::words_by;
use crate::session_io::SessionIo;
use crate::takings::Takings;
use crate::withdrawal_counts::WithdrawalCounts;
use crate::worker_state::WorkerState;
use crate::{Pace, Worker};
use clock::Clock;
use dialect::{Dialect, Note};
use exec_collector::{Accounts, Collector, WorkerSeat};
use fix_tags::{Config, Stamp, read_envelope};
use fix_text::{Frame, ReaderFault};
use journal_words::{Act, Deed, DeedLine, LegAct, WordsFault, read_deed};
use kept_link::{Telling, Untold};
use leg::{LegId, PlacedLeg, VenueId};
use link::Link;
use release_lock::{LockedDesk, Run, VenueDrain, let_down};
use report_words::ReportWords;
use session_core::{LegIds, Session, SessionFault, Step};
use std::alloc::{AllocError, Global};
use std::marker::Model;
use std::sync::Wait;
use sweep_release::Desk;

/// Why a line of a venue's journal can't be done again.
#[derive(Clone, Copy, Debug, PartialEq, Eq)]
pub enum RedoFault {
    /// It is no line of such a journal.
    Words(WordsFault),
    /// The leg in it isn't the next one that was released to the venue.
    OtherLeg,
    OutOfMemory,
}

impl From<AllocError> for RedoFault {
    ghost use Rattle.session_worker.specs.declared.restoring.RedoFault.TheVariants.{OutOfMemory};

    ghost from_gives = { λ _ fault. fault ≡ OutOfMemory };

    fn from(_: AllocError) -> RedoFault {
        RedoFault::OutOfMemory
    }
}

/// What a worker begins with: its session, the legs that it took, its seat, and how many legs it withdrew. It is new,
/// or its journal's lines were done again, one after the other, by the same calls as on the day.
#[derive(Drop)]
pub struct Start<L: Run, M: Accounts> {
    session: Session,
    takings: Takings<L>,
    seat: WorkerSeat<M>,
    withdrawn: WithdrawalCounts,
    /// How many of the legs taken the lines tell of.
    told: usize,
    /// How many notes were booked.
    booked: u64,
    /// The last note that came, and the words of its message.
    waiting: Option<(Note, ReportWords)>,
}

impl<L: Run, M: Accounts> Model for Start<L, M> {
    ghost use Rattle.session_worker.specs.Restoring.{StartParts, note_in};

    ghost Value = { StartParts };

    ghost view = { λ s. record {
      session = s.session;
      took = s.takings;
      seat = s.seat;
      told = s.told;
      counted = s.booked;
      waiting = note_in s.waiting;
    } };
}

impl<L: Run, M: Accounts> Start<L, M> {
    /// That of a worker which has done nothing.
    pub fn new(
        alloc: Global,
        config: Config,
        drain: VenueDrain<L>,
        seat: WorkerSeat<M>,
    ) -> Start<L, M>
        requires { drain.popped ≡ [] }
        ensures { result ≡ new_start (new_session config) drain.venue seat }
    {
        Start {
            session: Session::new(alloc, config),
            takings: Takings::new(alloc, drain),
            seat,
            withdrawn: WithdrawalCounts::none(),
            told: 0,
            booked: 0,
            waiting: None,
        }
    }

    /// The venue.
    pub fn venue(&self) -> VenueId
        ensures { result ≡ self.now.took.venue }
    {
        self.takings.venue()
    }

    /// The session.
    pub fn session(&self) -> &Session
        ensures { result.now ≡ self.now.session }
    {
        &self.session
    }

    /// How many legs were taken, up to the greatest number of its type.
    pub fn taken(&self) -> u64
        ensures { result ≡ min (length self.now.took.taken) 18446744073709551615 }
    {
        self.takings.count()
    }

    /// How many notes were booked, up to the greatest number of its type.
    pub fn booked(&self) -> u64
        ensures { result ≡ self.now.counted }
    {
        self.booked
    }

    /// How many of its legs are in doubt.
    pub fn doubts(&self) -> u64
        ensures { result ≡ length (window self.now.session.log) }
    {
        self.session.doubts().len() as u64
    }

    /// Puts the venue's gate up, so that sweeps may be placed for it, and says whether it is.
    pub fn raise(&self, desk: &mut LockedDesk<L>) -> bool
        ensures { Raises self.now.took desk.old result desk.new }
    {
        self.takings.raise_in(desk)
    }

    /// Puts it down again.
    pub fn lower(&self, desk: &mut LockedDesk<L>)
        ensures lowers { OnlyLowers desk.old desk.new }
        ensures replays { Replays desk.old × Replays desk.new }
    {
        let venue = self.takings.venue();
        desk.lend(|desk: &mut Desk| let_down(desk, venue));
    }

    /// Takes legs from the ring until so many were taken in all or it is empty. The only refusal is out of memory.
    pub fn take_to(&mut self, rt: &impl Wait, count: u64) -> Result<(), AllocError>
        ensures { TakesMore self.old self.new }
    {
        for _ in self.takings.count()..count {
            match self.takings.next_to(rt, count) {
                Ok(Some(_)) => {}
                Ok(None) => return Ok(()),
                Err(fault) => return Err(fault),
            }
        }
        Ok(())
    }

    /// Does again what a line says that the worker did. Its leg, if it has one, was taken from the ring before. At
    /// `Err` the start is of no use any more.
    pub fn redo<D: Dialect>(
        &mut self,
        rt: &impl Wait,
        alloc: Global,
        dialect: &D,
        collector: &Collector<M>,
        line: &[u8],
    ) -> Result<(), RedoFault>
        ensures { OnOk result (RedoesLine (D.wording dialect.now).decoding self.old line.now self.new) }
    {
        let mut message = Vec::new(alloc);
        let DeedLine { stamp, deed } = match read_deed(alloc, line, &mut message) {
            Ok(said) => said,
            Err(WordsFault::OutOfMemory) => return Err(RedoFault::OutOfMemory),
            Err(fault) => return Err(RedoFault::Words(fault)),
        };
        match deed {
            Deed::Act(act) => self.act(rt, dialect, collector, &stamp, act),
            Deed::Leg(act, placed) => self.leg(rt, dialect, collector, &stamp, act, &placed),
            Deed::Heard => self.hear(rt, alloc, dialect, collector, &stamp, message.as_slice()),
        }
    }

    /// The session is called again.
    fn act<D: Dialect>(
        &mut self,
        rt: &impl Wait,
        dialect: &D,
        collector: &Collector<M>,
        stamp: &Stamp,
        act: Act,
    ) -> Result<(), RedoFault>
        ensures { OnOk result
            (Redoes (D.wording dialect.now).decoding self.old (Calls (call_of act) ∷ []) self.new) }
    {
        match act {
            Act::Connected => match self.session.connect(dialect, stamp) {
                Ok(_) => Ok(()),
                Err(SessionFault::OutOfMemory) => Err(RedoFault::OutOfMemory),
                Err(_) => Ok(()),
            },
            Act::Confirmed => self.confirm(rt, collector),
            Act::Quieted => {
                let given = self.session.quiet(dialect, stamp);
                self.carry_out(rt, collector, given)
            }
            Act::Silenced => {
                let given = self.session.silent(dialect, stamp);
                self.carry_out(rt, collector, given)
            }
            Act::Closed => {
                let given = self.session.close(dialect, stamp);
                self.carry_out(rt, collector, given)
            }
            Act::Broke => {
                self.session.broken();
                Ok(())
            }
            Act::Abandoned => {
                self.session.abandon();
                Ok(())
            }
        }
    }

    /// What a call's step names as withdrawn is withdrawn in the book. Its frames went out, or are in doubt.
    fn carry_out(
        &mut self,
        rt: &impl Wait,
        collector: &Collector<M>,
        given: Result<Step, SessionFault>,
    ) -> Result<(), RedoFault>
        ensures { OnOk result (CarriesOutAgain given self.old self.new) }
    {
        match given {
            Ok(step) => {
                self.withdraw_all(rt, collector, step.withdrawn);
                Ok(())
            }
            Err(SessionFault::OutOfMemory) => Err(RedoFault::OutOfMemory),
            Err(_) => Ok(()),
        }
    }

    /// The same of the step of a message that was received with these words, and its note waits, if it has one.
    fn follow(&mut self, rt: &impl Wait, collector: &Collector<M>, step: Step, words: ReportWords)
        ensures { Follows step self.old self.new }
    {
        let Step {
            out: _,
            note,
            withdrawn,
            ended: _,
        } = step;
        if let Some(note) = note {
            self.waiting = Some((note, words));
        }
        self.withdraw_all(rt, collector, withdrawn);
    }

    /// Asks the book to withdraw legs, and counts what it answers.
    fn withdraw_all(&mut self, rt: &impl Wait, collector: &Collector<M>, ids: LegIds)
        ensures { AsksFor ids self.old self.new }
    {
        let ids = ids.into_vec();
        for id in &ids {
            self.withdraw(rt, collector, *id);
        }
    }

    /// Asks the book to withdraw a leg, and counts what it answers. That it is withdrawn is kept: a line says so.
    fn withdraw(&mut self, rt: &impl Wait, collector: &Collector<M>, id: LegId)
        ensures { AsksFor (id ∷ []) self.old self.new }
    {
        match collector.withdraw(rt, id, &mut self.seat, &Untold) {
            Ok(()) => self.withdrawn.count_done(),
            Err(_) => self.withdrawn.count_refused(),
        }
    }

    /// The note that is pending is booked again, and its message is counted. The session counts none where no note is
    /// pending.
    fn confirm(&mut self, rt: &impl Wait, collector: &Collector<M>) -> Result<(), RedoFault>
        ensures { OnOk result ((read : Decoding) → Redoes read self.old (Calls call.Confirm ∷ []) self.new) }
    {
        let due = self.session.next_in();
        self.session.confirm();
        if self.session.next_in() == due {
            return Ok(());
        }
        let Start {
            session: _,
            takings: _,
            seat,
            withdrawn: _,
            told: _,
            booked,
            waiting,
        } = self;
        let Some((note, words)) = waiting else {
            return Ok(());
        };
        match collector.apply(rt, note, words, seat) {
            Ok(_) => {
                *booked = booked.saturating_add(1);
                Ok(())
            }
            Err(_) => Err(RedoFault::OutOfMemory),
        }
    }

    /// A leg that was taken is sent again, or dropped.
    fn leg<D: Dialect>(
        &mut self,
        rt: &impl Wait,
        dialect: &D,
        collector: &Collector<M>,
        stamp: &Stamp,
        act: LegAct,
        placed: &PlacedLeg,
    ) -> Result<(), RedoFault>
        ensures { OnOk result
            (Redoes (D.wording dialect.now).decoding self.old (leg_event act placed.now ∷ []) self.new) }
    {
        if !self.takings.is_leg(self.told, placed) {
            return Err(RedoFault::OtherLeg);
        }
        self.told += 1;
        match act {
            LegAct::Sent => match self
                .session
                .send_leg(dialect, placed.ordinal, &placed.leg, stamp)
            {
                Ok(_) => Ok(()),
                Err(SessionFault::OutOfMemory) => Err(RedoFault::OutOfMemory),
                Err(_) => {
                    self.withdraw(rt, collector, placed.leg.id);
                    Ok(())
                }
            },
            LegAct::Dropped => {
                self.withdraw(rt, collector, placed.leg.id);
                Ok(())
            }
            LegAct::Failed => {
                self.session.broken();
                self.withdraw(rt, collector, placed.leg.id);
                Ok(())
            }
        }
    }

    /// A message is received again.
    fn hear<D: Dialect>(
        &mut self,
        rt: &impl Wait,
        alloc: Global,
        dialect: &D,
        collector: &Collector<M>,
        stamp: &Stamp,
        message: &[u8],
    ) -> Result<(), RedoFault>
        ensures { OnOk result (Redoes (D.wording dialect.now).decoding self.old
            (Calls (heard_call (fields_of message.now)) ∷ []) self.new) }
    {
        let mut places = Vec::new(alloc);
        let frame = match Frame::read(message, &mut places) {
            Ok(Some(frame)) => frame,
            Ok(None) => {
                let _ = self.session.malformed();
                return Ok(());
            }
            Err(ReaderFault::OutOfMemory) => return Err(RedoFault::OutOfMemory),
        };
        match read_envelope(&frame) {
            Ok(envelope) => match self.session.receive(dialect, &envelope, stamp) {
                Ok(step) => {
                    let words = words_by(&frame, &step);
                    self.follow(rt, collector, step, words);
                    Ok(())
                }
                Err(_) => Err(RedoFault::OutOfMemory),
            },
            Err(_) => {
                let _ = self.session.malformed();
                Ok(())
            }
        }
    }

    /// The lines are at their end: the process that wrote them is gone, and so is its connection. It says whether they
    /// tell of each leg that was taken.
    pub fn end(&mut self) -> bool
        ensures ended { self.new ≡ record self.old { session = broken self.old.session } }
        ensures all { IsTrue result ↔ (self.old.told ≡ length self.old.took.taken) }
    {
        self.session.broken();
        self.told == self.takings.len()
    }
}

impl<D: Dialect + Drop, K: Link, C: Clock + Drop, L: Run, M: Accounts, J: Telling> Worker<
    D,
    K,
    C,
    L,
    M,
    J,
> {
    /// A worker that goes on from this start. What was released to its venue and not taken it drops before it dials.
    pub fn going_on(
        alloc: Global,
        dialect: D,
        link: K,
        journal: J,
        clock: C,
        config: Config,
        start: Start<L, M>,
        pace: Pace,
    ) -> Worker<D, K, C, L, M, J>
        ensures dialect { result.dialect ≡ dialect }
        ensures parts { result.parts ≡ worker_from start (K.wire link) (J.told journal) }
    {
        let Start {
            session,
            takings,
            seat,
            withdrawn,
            told: _,
            booked: _,
            waiting: _,
        } = start;
        let venue = takings.venue();
        let io = SessionIo::new(alloc, link, journal, clock, config, venue, pace);
        Worker {
            dialect,
            state: WorkerState {
                io: io.with_session(session),
                takings,
                seat,
                withdrawn,
                raised: true,
            },
        }
    }
}
