//! What a worker does in its turns.

ghost use Rattle.std.specs.Prelude.{◌≡◌, ◌++◌, ◌∷◌, [], Bool, true, false, MatchOption, MatchResult};
ghost use Rattle.std.specs.List.{concat};
ghost use Rattle.dialect.specs.Wording.{Decoding};
ghost use Rattle.link.specs.Traffic.{Tells, Stays};
ghost use Rattle.session_core.specs.declared.phase.Phase.TheVariants as phase;
ghost use Rattle.session_core.specs.Receiving.{confirm};
ghost use Rattle.session_core.specs.Calling.{broken};
ghost use Rattle.session_core.specs.declared.session_call.SessionCall.TheVariants as call;
ghost use Rattle.session_worker.specs.Events.{Goes, lasting};
ghost use Rattle.session_worker.specs.Events.WorkerEvent.{Calls, Drops};
ghost use Rattle.session_worker.specs.Keeping.{TellsEvents};
ghost use Rattle.session_worker.specs.Linking.{worker_in, beside_shares, asked_too, MayBook, Sends, Does, Heeds, Drains, CarriesOut, StandsStill};
ghost use Rattle.session_worker.specs.Withdrawing.{Withdraws, WithdrawsAll};
ghost use Rattle.session_worker.specs.Ends.{is_over, IsReason, last_calls};
ghost use Rattle.session_worker.specs.Taking.{TakesNext};

use crate::EndReason;
use crate::gates::{lower, shut_gate};
use crate::patience::Patience;
use crate::session_io::SessionIo;
use crate::takings::Takings;
use crate::withdrawal_counts::WithdrawalCounts;
use change_count::Stop;
use clock::Clock;
use dialect::{Dialect, Note};
use exec_collector::{Accounts, Collector, WorkerSeat};
use kept_link::Telling;
use leg::{LegId, PlacedLeg};
use link::Link;
use release_lock::{ReleaseLock, Run};
use report_words::ReportWords;
use session_core::{LegIds, Phase, Step};
use std::alloc::AllocError;
use std::marker::Model;
use std::sync::Wait;
use venue_board::Loss;

/// In how many rounds a turn drains a ring at most.
const DRAIN_ROUNDS: usize = 8;

/// How many bytes a turn reads at most.
const READ_SIZE: usize = 4096;

/// How many messages a turn takes at most; the others are taken in the next one.
const MESSAGES_A_TURN: usize = 512;

/// How many legs a turn sends at most.
const LEGS_A_TURN: usize = 32;

/// How far a ring was drained.
#[derive(Clone, Copy)]
pub(crate) enum Drained {
    /// Nothing was left.
    Everything,
    /// The rounds of a turn weren't enough.
    SomeLeft,
    /// There was no room for a leg, which is left in the ring.
    NoRoom,
}

/// What a worker works with: its session over its link, what it took from the ring, its seat, what became of the legs
/// that it asked the book to withdraw, and whether its gate may be up. Contracts see the first four.
#[derive(Drop)]
pub(crate) struct WorkerState<K: Link, C: Clock + Drop, L: Run, M: Accounts, J: Telling> {
    pub(crate) io: SessionIo<K, C, J>,
    pub(crate) takings: Takings<L>,
    pub(crate) seat: WorkerSeat<M>,
    pub(crate) withdrawn: WithdrawalCounts,
    pub(crate) raised: bool,
}

impl<K: Link, C: Clock + Drop, L: Run, M: Accounts, J: Telling> Model
    for WorkerState<K, C, L, M, J> {
    ghost use Rattle.session_worker.specs.Linking.{WorkerStateParts};

    ghost Value = { WorkerStateParts };

    ghost view = { λ p. record { io = p.io; took = p.takings; seat = p.seat; withdrawn = p.withdrawn } };
}

impl<K: Link, C: Clock + Drop, L: Run, M: Accounts, J: Telling> WorkerState<K, C, L, M, J> {
    /// Takes its turns, until one leaves the session closed, it has rested so often, or it is told to stop and its
    /// patience is over. A turn in which it had something to do doesn't count.
    pub(crate) fn turns<D: Dialect, N: Telling>(
        &mut self,
        rt: &impl Wait,
        dialect: &D,
        lock: &ReleaseLock<L, N>,
        collector: &Collector<M>,
        stop: &Stop,
        turn_limit: u64,
    ) -> EndReason
        ensures does { Does (D.wording dialect.now) self.old self.new }
        ensures reason { IsReason result self.new.io.session.phase }
    {
        let mut buf = [0; READ_SIZE];
        let mut rests = 0;
        let mut patience = Patience::new();
        for _ in rt.forever() {
            if has_ended(self.io.phase())
                || rests >= turn_limit
                || patience.is_over(stop, self.io.millis())
            {
                break;
            }
            self.heed(rt, lock, stop);
            let held = self.is_held(lock);
            if self.turn(rt, dialect, lock, collector, &mut buf, held) {
                rests += 1;
            }
        }
        if has_ended(self.io.phase()) {
            return EndReason::Closed;
        }
        if rests >= turn_limit {
            EndReason::TurnLimit
        } else {
            EndReason::Stopped
        }
    }

    /// Whether the venue is held, or was since the worker put its gate up: also a hold that is over has put it down.
    fn is_held<N: Telling>(&self, lock: &ReleaseLock<L, N>) -> bool {
        let venue = self.takings.venue();
        lock.is_held(venue) || (self.raised && lock.is_lowered(venue))
    }

    /// Where the worker was told to stop its gate is shut.
    fn heed<N: Telling>(&self, rt: &impl Wait, lock: &ReleaseLock<L, N>, stop: &Stop) {
        let venue = self.takings.venue();
        if stop.is_told() && !lock.is_shut(venue) {
            shut_gate(rt, lock, venue);
        }
    }

    /// The session is over, also where no turn has left it so.
    pub(crate) fn finish(&mut self, rt: &impl Wait)
        ensures goes { (read : Decoding) → Goes read (worker_in self.old) (last_calls self.old.io.session.phase)
            (worker_in self.new) }
        ensures wire { Tells self.old.io.wire self.new.io.wire Stays }
        ensures told { TellsEvents self.old.io.told (last_calls self.old.io.session.phase) self.new.io.told }
        ensures over { self.new.io.session.phase ≡ phase.Closed }
    {
        if has_ended(self.io.phase()) {
            return;
        }
        self.io.abandon(rt);
    }

    /// One turn, which reads into this buffer, and whether the worker rested at its end, since it had nothing to do. In
    /// a turn before which the venue was found held no leg is sent.
    pub(crate) fn turn<D: Dialect, N: Telling>(
        &mut self,
        rt: &impl Wait,
        dialect: &D,
        lock: &ReleaseLock<L, N>,
        collector: &Collector<M>,
        buf: &mut [u8],
        held: bool,
    ) -> bool
        ensures { Heeds (D.wording dialect.now) held self.old self.new }
    {
        let taken = self.takings.count();
        self.io.begin_turn();
        self.begin(rt, dialect, lock, collector, held);
        self.close_if_shut(rt, dialect, lock, collector);
        self.listen(rt, dialect, collector, buf);
        self.write_if_quiet(rt, dialect, collector);
        self.ask_if_silent(rt, dialect, collector);
        self.rest_if_idle(taken)
    }

    /// At the end of a turn in which no leg was taken since there were this many, nothing written and nothing heard,
    /// the worker rests. It says whether it did.
    fn rest_if_idle(&mut self, taken: u64) -> bool
        ensures session { self.new.io.session ≡ self.old.io.session }
        ensures wire { Tells self.old.io.wire self.new.io.wire Stays }
        ensures stream { self.new.io.stream ≡ self.old.io.stream }
        ensures told { self.new.io.told ≡ self.old.io.told }
        ensures took { self.new.took ≡ self.old.took }
        ensures seat { beside_shares self.new.seat ≡ beside_shares self.old.seat }
    {
        let count = self.takings.count();
        if count != taken || !self.io.is_idle() {
            self.io.tell_legs_if_due(count, self.withdrawn.done);
            return false;
        }
        self.io.tell_legs(count, self.withdrawn.done);
        self.io.rest();
        true
    }

    /// What a turn begins with, by how far the session has come.
    fn begin<D: Dialect, N: Telling>(
        &mut self,
        rt: &impl Wait,
        dialect: &D,
        lock: &ReleaseLock<L, N>,
        collector: &Collector<M>,
        held: bool,
    )
        ensures { Heeds (D.wording dialect.now) held self.old self.new }
    {
        match self.io.phase() {
            Phase::Down => self.start(rt, dialect, lock, collector),
            Phase::Up => self.serve(rt, dialect, lock, collector, held),
            Phase::LoggingOn => {}
            Phase::Settling => {}
            Phase::Closing => {}
            Phase::LoggedOut => {}
            Phase::Closed => {}
        }
    }

    /// In `Down`: the gate goes down, and what is placed is dropped. Once nothing is left the session may connect.
    fn start<D: Dialect, N: Telling>(
        &mut self,
        rt: &impl Wait,
        dialect: &D,
        lock: &ReleaseLock<L, N>,
        collector: &Collector<M>,
    )
        requires { self.old.io.session.phase ≡ phase.Down }
        ensures { (held : Bool) → Heeds (D.wording dialect.now) held self.old self.new }
    {
        self.put_down(rt, lock);
        match self.drain(rt, lock, collector) {
            Drained::Everything => self.connect(rt, dialect, lock, collector),
            Drained::SomeLeft => {}
            Drained::NoRoom => {}
        }
    }

    /// The gate goes down, if it may be up.
    fn put_down<N: Telling>(&mut self, rt: &impl Wait, lock: &ReleaseLock<L, N>)
        ensures { self.new ≡ self.old }
    {
        if self.raised {
            lower(rt, lock, self.takings.venue());
            self.raised = false;
        }
    }

    /// The session connects, once the pause after the last dial is over. It is over where the gate was shut and no leg
    /// is in doubt, or where no number is left for a Logon.
    fn connect<D: Dialect, N: Telling>(
        &mut self,
        rt: &impl Wait,
        dialect: &D,
        lock: &ReleaseLock<L, N>,
        collector: &Collector<M>,
    )
        requires { self.old.io.session.phase ≡ phase.Down }
        ensures { (held : Bool) → Heeds (D.wording dialect.now) held self.old self.new }
    {
        let venue = self.takings.venue();
        if lock.is_shut(venue) && !self.io.in_doubt() {
            return self.io.abandon(rt);
        }
        if !self.io.may_dial() {
            return;
        }
        if self.io.connect(rt, dialect) {
            return;
        }
        shut_gate(rt, lock, venue);
        self.drain(rt, lock, collector);
        self.io.abandon(rt);
    }

    /// In `Up`: the legs that wait are sent, or dropped while the venue is held.
    fn serve<D: Dialect, N: Telling>(
        &mut self,
        rt: &impl Wait,
        dialect: &D,
        lock: &ReleaseLock<L, N>,
        collector: &Collector<M>,
        held: bool,
    )
        ensures { Heeds (D.wording dialect.now) held self.old self.new }
    {
        if held {
            self.withhold(rt, lock, collector)
        } else {
            self.send_waiting(rt, dialect, lock, collector)
        }
    }

    /// The gate goes down, and what is placed is dropped.
    fn withhold<N: Telling>(
        &mut self,
        rt: &impl Wait,
        lock: &ReleaseLock<L, N>,
        collector: &Collector<M>,
    )
        ensures { Drains self.old self.new }
    {
        self.note_up();
        self.put_down(rt, lock);
        self.drain(rt, lock, collector);
    }

    /// The session is up, whether orders are taken or not.
    fn note_up(&mut self)
        ensures { self.new ≡ self.old }
    {
        self.io.came_up();
        self.io.tell_up();
    }

    /// The gate is put up, and the legs that wait are sent, so many at most. Before it asks for the first one the
    /// worker tells that it may be sending.
    fn send_waiting<D: Dialect, N: Telling>(
        &mut self,
        rt: &impl Wait,
        dialect: &D,
        lock: &ReleaseLock<L, N>,
        collector: &Collector<M>,
    )
        ensures { Heeds (D.wording dialect.now) false self.old self.new }
    {
        if !self.put_up(rt, lock) {
            return;
        }
        let venue = self.takings.venue();
        lock.tell_sending(venue, true);
        self.send_some(rt, dialect, lock, collector);
        lock.tell_sending(venue, false);
    }

    /// The legs that wait are sent, so many at most, until the venue is found held, now or since its gate went up, or
    /// its gate shut.
    fn send_some<D: Dialect, N: Telling>(
        &mut self,
        rt: &impl Wait,
        dialect: &D,
        lock: &ReleaseLock<L, N>,
        collector: &Collector<M>,
    )
        ensures { Heeds (D.wording dialect.now) false self.old self.new }
    {
        let venue = self.takings.venue();
        for _ in 0..LEGS_A_TURN {
            if lock.is_lowered(venue) || lock.is_shut(venue) || !self.io.is_up() {
                return;
            }
            if !self.send_next(rt, dialect, lock, collector) {
                return;
            }
        }
    }

    /// The gate goes up, unless the worker has put it up since the session came up, and it says whether it is. Where
    /// that is refused the next turn tries again.
    fn put_up<N: Telling>(&mut self, rt: &impl Wait, lock: &ReleaseLock<L, N>) -> bool
        ensures { self.new ≡ self.old }
    {
        if self.raised {
            return true;
        }
        self.io.came_up();
        self.raised = self.takings.raise(rt, lock).is_ok();
        if self.raised {
            self.io.tell_up();
        }
        self.raised
    }

    /// The next leg is sent, and it says whether there was one.
    fn send_next<D: Dialect, N: Telling>(
        &mut self,
        rt: &impl Wait,
        dialect: &D,
        lock: &ReleaseLock<L, N>,
        collector: &Collector<M>,
    ) -> bool
        requires { self.old.io.session.phase ≡ phase.Up }
        ensures { Heeds (D.wording dialect.now) false self.old self.new }
    {
        match next_leg(rt, lock, &mut self.takings) {
            Ok(next) => self.send(rt, dialect, collector, next),
            Err(_) => {
                self.io.break_off(rt, Loss::OutOfMemory);
                false
            }
        }
    }

    /// Sends the leg that was taken, if one was, and says whether one was. One that the session doesn't take is
    /// withdrawn in the book.
    fn send<D: Dialect>(
        &mut self,
        rt: &impl Wait,
        dialect: &D,
        collector: &Collector<M>,
        next: Option<PlacedLeg>,
    ) -> bool
        ensures sends { MatchOption next
            ((self.new.io ≡ self.old.io) × (beside_shares self.new.seat ≡ beside_shares self.old.seat))
            (λ leg. Sends (D.wording dialect.now) leg self.old self.new) }
        ensures took { self.new.took ≡ self.old.took }
    {
        let Some(leg) = next else {
            return false;
        };
        if self.io.send(rt, dialect, &leg) {
            return true;
        }
        self.withdraw(rt, collector, leg.leg.id);
        true
    }

    /// With the gate shut the session is to close while it is connected, and what is placed is dropped. Where there is
    /// no room for a leg the connection is given up.
    fn close_if_shut<D: Dialect, N: Telling>(
        &mut self,
        rt: &impl Wait,
        dialect: &D,
        lock: &ReleaseLock<L, N>,
        collector: &Collector<M>,
    )
        ensures { (held : Bool) → Heeds (D.wording dialect.now) held self.old self.new }
    {
        if !self.io.is_connected() || !lock.is_shut(self.takings.venue()) {
            return;
        }
        self.io.close(rt, dialect);
        match self.drain(rt, lock, collector) {
            Drained::Everything => {}
            Drained::SomeLeft => {}
            Drained::NoRoom => self.io.break_off(rt, Loss::OutOfMemory),
        }
    }

    /// Reads once into the buffer, while there is a connection, and does what the messages want.
    fn listen<D: Dialect>(
        &mut self,
        rt: &impl Wait,
        dialect: &D,
        collector: &Collector<M>,
        buf: &mut [u8],
    )
        ensures { (held : Bool) → Heeds (D.wording dialect.now) held self.old self.new }
    {
        if !self.io.is_connected() {
            return;
        }
        self.io.read(rt, buf);
        for _ in 0..MESSAGES_A_TURN {
            match self.io.hear(rt, dialect) {
                Some((step, words)) => self.carry_out(rt, collector, step, &words),
                None => return,
            }
        }
    }

    /// After so long without a write the session writes a Heartbeat.
    fn write_if_quiet<D: Dialect>(&mut self, rt: &impl Wait, dialect: &D, collector: &Collector<M>)
        ensures { (held : Bool) → Heeds (D.wording dialect.now) held self.old self.new }
    {
        match self.io.on_quiet(rt, dialect) {
            Some(step) => self.carry_out(rt, collector, step, &ReportWords::none()),
            None => {}
        }
    }

    /// After so long without a message the session writes a fence, and the second time the connection ends.
    fn ask_if_silent<D: Dialect>(&mut self, rt: &impl Wait, dialect: &D, collector: &Collector<M>)
        ensures { (held : Bool) → Heeds (D.wording dialect.now) held self.old self.new }
    {
        match self.io.on_silence(rt, dialect) {
            Some(step) => self.carry_out(rt, collector, step, &ReportWords::none()),
            None => {}
        }
    }

    /// Does what a step of the session wants: the legs that it names are withdrawn in the book, its note is booked with
    /// these words and then confirmed, and its frames are written. Where the book wants memory the connection is given
    /// up.
    fn carry_out(
        &mut self,
        rt: &impl Wait,
        collector: &Collector<M>,
        step: Step,
        words: &ReportWords,
    )
        ensures { CarriesOut step.withdrawn step.note (concat step.out) self.old self.new }
    {
        let Step {
            out,
            note,
            withdrawn,
            ended,
        } = step;
        self.withdraw_all(rt, collector, withdrawn);
        if !self.take_note(rt, collector, note, words) {
            return;
        }
        self.io.write_all(rt, out);
        if let Some(why) = ended {
            self.io.hang_up(Loss::Ended(why));
        }
    }

    /// Books the note, if there is one, with its words, and says whether the session may go on.
    fn take_note(
        &mut self,
        rt: &impl Wait,
        collector: &Collector<M>,
        note: Option<Note>,
        words: &ReportWords,
    ) -> bool
        ensures booked { result ≡ true → MayBook note self.old.io.session self.old.seat.booked self.old.io.told
            self.new.io.session self.new.seat.booked self.new.io.told }
        ensures broken { result ≡ false → (self.new.io.session ≡ broken self.old.io.session)
            × (self.new.seat.booked ≡ self.old.seat.booked)
            × TellsEvents self.old.io.told (Calls call.Broken ∷ []) self.new.io.told }
        ensures wire { Tells self.old.io.wire self.new.io.wire Stays }
        ensures stream { self.new.io.stream ≡ self.old.io.stream }
        ensures took { self.new.took ≡ self.old.took }
        ensures seat { lasting self.new.seat ≡ lasting self.old.seat }
        ensures asked { self.new.seat.asked ≡ self.old.seat.asked }
    {
        match note {
            Some(note) => self.book(rt, collector, &note, words),
            None => true,
        }
    }

    /// Books a note with its words, and says whether the book took it. Where it wants memory the connection is given
    /// up.
    fn book(
        &mut self,
        rt: &impl Wait,
        collector: &Collector<M>,
        note: &Note,
        words: &ReportWords,
    ) -> bool
        ensures booked { result ≡ true → (self.new.io.session ≡ confirm self.old.io.session)
            × (self.new.seat.booked ≡ self.old.seat.booked ++ note.now ∷ [])
            × TellsEvents self.old.io.told (Calls call.Confirm ∷ []) self.new.io.told }
        ensures broken { result ≡ false → (self.new.io.session ≡ broken self.old.io.session)
            × (self.new.seat.booked ≡ self.old.seat.booked)
            × TellsEvents self.old.io.told (Calls call.Broken ∷ []) self.new.io.told }
        ensures wire { Tells self.old.io.wire self.new.io.wire Stays }
        ensures stream { self.new.io.stream ≡ self.old.io.stream }
        ensures took { self.new.took ≡ self.old.took }
        ensures seat { lasting self.new.seat ≡ lasting self.old.seat }
        ensures asked { self.new.seat.asked ≡ self.old.seat.asked }
    {
        match collector.apply(rt, note, words, &mut self.seat) {
            Ok(_) => {
                self.io.confirm(rt);
                true
            }
            Err(_) => {
                self.io.break_off(rt, Loss::OutOfMemory);
                false
            }
        }
    }

    /// Drops what is placed at the venue, in at most eight rounds, and says how far it came.
    pub(crate) fn drain<N: Telling>(
        &mut self,
        rt: &impl Wait,
        lock: &ReleaseLock<L, N>,
        collector: &Collector<M>,
    ) -> Drained
        ensures { Drains self.old self.new }
    {
        for _ in 0..DRAIN_ROUNDS {
            let pushed = lock.pump(rt, self.takings.venue());
            if self.takings.count() == pushed {
                return Drained::Everything;
            }
            if !self.drop_to(rt, collector, pushed) {
                return Drained::NoRoom;
            }
        }
        Drained::SomeLeft
    }

    /// Drops legs until so many were taken in all or the ring is empty, and says whether there was room for each.
    fn drop_to(&mut self, rt: &impl Wait, collector: &Collector<M>, count: u64) -> bool
        ensures { Drains self.old self.new }
    {
        for _ in self.takings.count()..count {
            match self.takings.next_to(rt, count) {
                Ok(Some(leg)) => self.drop_leg(rt, collector, &leg),
                Ok(None) => return true,
                Err(_) => return false,
            }
        }
        true
    }

    /// Drops a leg that was taken.
    fn drop_leg(&mut self, rt: &impl Wait, collector: &Collector<M>, leg: &PlacedLeg)
        ensures io { StandsStill (Drops leg.now ∷ []) self.old.io self.new.io }
        ensures took { self.new.took ≡ self.old.took }
        ensures seat { beside_shares self.new.seat ≡ asked_too (leg.now.leg.id ∷ []) (beside_shares self.old.seat) }
    {
        self.io.tell_dropped(rt, leg);
        self.withdraw(rt, collector, leg.leg.id);
    }

    /// Asks the book to withdraw legs, and counts what it answers.
    fn withdraw_all(&mut self, rt: &impl Wait, collector: &Collector<M>, ids: LegIds)
        ensures counted { WithdrawsAll ids self.old self.new }
        ensures io { StandsStill [] self.old.io self.new.io }
        ensures took { self.new.took ≡ self.old.took }
        ensures seat { beside_shares self.new.seat ≡ asked_too ids (beside_shares self.old.seat) }
    {
        let ids = ids.into_vec();
        for id in &ids {
            self.withdraw(rt, collector, *id);
        }
    }

    /// Asks the book to withdraw a leg, once what says so is kept, and counts what it answers. A refusal is told at
    /// once.
    fn withdraw(&mut self, rt: &impl Wait, collector: &Collector<M>, id: LegId)
        ensures counted { Withdraws id self.old self.new }
        ensures io { StandsStill [] self.old.io self.new.io }
        ensures took { self.new.took ≡ self.old.took }
        ensures seat { beside_shares self.new.seat ≡ asked_too (id ∷ []) (beside_shares self.old.seat) }
    {
        self.io.keep(rt);
        match collector.withdraw(rt, id, &mut self.seat, self.io.journal()) {
            Ok(()) => self.withdrawn.count_done(),
            Err(_) => {
                self.withdrawn.count_refused();
                self.io.tell_refused(self.withdrawn.refused);
            }
        }
    }
}

/// Whether a session in this phase is over.
fn has_ended(phase: Phase) -> bool
    ensures { result ≡ is_over phase }
{
    match phase {
        Phase::Closed => true,
        Phase::Down => false,
        Phase::LoggingOn => false,
        Phase::Settling => false,
        Phase::Up => false,
        Phase::Closing => false,
        Phase::LoggedOut => false,
    }
}

/// The next leg of a ring. Where it is empty, and legs are placed for which it had no room, they are moved into it
/// first.
fn next_leg<L: Run, N: Telling>(
    rt: &impl Wait,
    lock: &ReleaseLock<L, N>,
    takings: &mut Takings<L>,
) -> Result<Option<PlacedLeg>, AllocError>
    ensures { MatchResult result (TakesNext takings.old takings.new) (λ _. takings.new ≡ takings.old) }
{
    if let Some(leg) = takings.next(rt)? {
        return Ok(Some(leg));
    }
    if !lock.is_behind(takings.venue()) {
        return Ok(None);
    }
    lock.pump(rt, takings.venue());
    takings.next(rt)
}
