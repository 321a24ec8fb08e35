//! A session and the link over which it speaks.

ghost use Rattle.std.specs.Prelude.{◌≡◌, ◌↔◌, ◌⊎◌, [], ◌∷◌, true, false, IfSome, IsTrue};
ghost use Rattle.std.specs.Option.{option_map};
ghost use Rattle.std.specs.List.{concat};
ghost use Rattle.session_core.specs.declared.phase.Phase.TheVariants as phase;
ghost use Rattle.session_core.specs.Session.{new_session, is_connected, has_doubt};
ghost use Rattle.session_core.specs.Receiving.{confirm};
ghost use Rattle.session_core.specs.Calling.{broken, abandon};
ghost use Rattle.fix_text.specs.Reading.{Stream};
ghost use Rattle.link.specs.Traffic.{Tells, Dials, Stays};
ghost use Rattle.session_worker.specs.Speaking.{Wire, Reads};
ghost use Rattle.session_worker.specs.Hearing.{Said};
ghost use Rattle.session_core.specs.declared.session_call.SessionCall.TheVariants as call;
ghost use Rattle.kept_link.specs.Telling.{IsAllKept};
ghost use Rattle.session_worker.specs.Linking.{io_of, IsHearing, MayGiveUp, StandsStill, TakesIn, Writes, Moves, Hands, AsksOrMoves};
ghost use Rattle.session_worker.specs.Events.{IsIdle};
ghost use Rattle.session_worker.specs.Events.WorkerEvent.{Calls, Drops, Fails};
ghost use Rattle.session_worker.specs.Keeping.{TellsEvents, call_of, leg_event};
ghost use Rattle.session_worker.specs.Saying.{Says};

use crate::Pace;
use crate::fencing::Fencing;
use crate::reading::{Heard, hear};
use crate::redial::Redial;
use crate::reporter::Reporter;
use crate::telling::{keep, tell_act, tell_leg};
use crate::timer::Timer;
use clock::Clock;
use dialect::Dialect;
use fix_tags::{Config, Stamp};
use fix_text::FrameReader;
use journal_words::{Act, LegAct};
use kept_link::{Door, Telling};
use leg::{PlacedLeg, VenueId};
use link::{Got, Link};
use report_words::ReportWords;
use session_core::{Ended, Frames, Phase, Session, SessionFault, Step};
use std::alloc::Global;
use std::marker::Model;
use std::sync::{Arc, Wait};
use std::time::Duration;
use venue_board::{Loss, Progress, VenueBoard};

/// How many milliseconds a rest lasts at least, unless the link has something to tell.
const LEAST_REST: u64 = 1;

/// How many it lasts at most, so that a worker whose bell nobody rings comes back to its gate.
const LONGEST_REST: u64 = 1_000;

/// How many it lasts at most while the session is up.
const LONGEST_REST_UP: u64 = 30_000;

/// A session, the link over which it speaks, since when nothing was written and nothing heard, when it is dialled
/// again, and whom it tells how far it is. Its journal is told each call of the session before what follows from it is
/// written or done. Contracts see the session, what the link tells, what the reader has, and what the journal was told.
#[derive(Drop)]
pub(crate) struct SessionIo<K: Link, C: Clock + Drop, J: Telling> {
    alloc: Global,
    door: Door<K>,
    journal: J,
    clock: C,
    session: Session,
    reader: FrameReader,
    timer: Timer,
    fencing: Fencing,
    redial: Redial,
    reporter: Reporter,
    /// Whether it is dialled again after the exchange logged out first.
    reopens: bool,
}

impl<K: Link, C: Clock + Drop, J: Telling> Model for SessionIo<K, C, J> {
    ghost use Rattle.session_worker.specs.Linking.{SessionIoParts};

    ghost Value = { SessionIoParts };

    ghost view = { λ l. record {
      session = l.session;
      wire = l.door.wire;
      stream = l.reader;
      told = J.told l.journal;
    } };
}

impl<K: Link, C: Clock + Drop, J: Telling> SessionIo<K, C, J> {
    /// The session of a venue, which is down, over a link that isn't dialled yet.
    pub(crate) fn new(
        alloc: Global,
        link: K,
        journal: J,
        clock: C,
        config: Config,
        venue: VenueId,
        pace: Pace,
    ) -> SessionIo<K, C, J>
        ensures session { result.session ≡ new_session config }
        ensures wire { result.wire ≡ K.wire link }
        ensures told { result.told ≡ J.told journal }
    {
        let timer = Timer::new(pace, config.heart());
        SessionIo {
            alloc,
            door: Door::new(link),
            journal,
            clock,
            session: Session::new(alloc, config),
            reader: FrameReader::new(alloc),
            timer,
            fencing: Fencing::new(pace),
            redial: Redial::new(pace, u64::from(venue.number())),
            reporter: Reporter::new(),
            reopens: false,
        }
    }

    /// The same, with a session that goes on.
    pub(crate) fn with_session(self, session: Session) -> SessionIo<K, C, J>
        ensures session { result.session ≡ session }
        ensures wire { result.wire ≡ self.wire }
        ensures told { result.told ≡ self.told }
    {
        let mut io = self;
        io.session = session;
        io
    }

    /// The session, the link and the journal, at the end.
    pub(crate) fn into_parts(self) -> (Session, K, J)
        ensures session { result.0 ≡ self.session }
        ensures wire { K.wire result.1 ≡ self.wire }
        ensures told { J.told result.2 ≡ self.told }
    {
        let SessionIo {
            alloc: _,
            door,
            journal,
            clock: _,
            session,
            reader: _,
            timer: _,
            fencing: _,
            redial: _,
            reporter: _,
            reopens: _,
        } = self;
        (session, door.into_link(), journal)
    }

    /// From now on it tells on this board how far it is.
    pub(crate) fn tell_on(&mut self, board: Arc<VenueBoard, Global>)
        ensures { self.new ≡ self.old }
    {
        self.reporter.tell_on(board);
    }

    /// From now on it is dialled again after the exchange logged out first, or isn't.
    pub(crate) fn set_reopens(&mut self, reopens: bool)
        ensures { self.new ≡ self.old }
    {
        self.reopens = reopens;
    }

    pub(crate) fn phase(&self) -> Phase
        ensures { result ≡ self.now.session.phase }
    {
        self.session.phase()
    }

    pub(crate) fn is_up(&self) -> bool
        ensures { IsTrue result ↔ (self.now.session.phase ≡ phase.Up) }
    {
        self.session.phase() == Phase::Up
    }

    pub(crate) fn is_connected(&self) -> bool
        ensures { result ≡ is_connected self.now.session.phase }
    {
        self.session.phase().is_connected()
    }

    pub(crate) fn in_doubt(&self) -> bool
        ensures { result ≡ has_doubt self.now.session }
    {
        self.session.in_doubt()
    }

    /// Tells the journal that the session was called.
    fn tell(&mut self, rt: &impl Wait, stamp: &Stamp, act: Act)
        ensures { StandsStill (Calls (call_of act) ∷ []) self.old self.new }
    {
        tell_act(rt, &mut self.door, &mut self.journal, stamp, act);
    }

    /// Tells it what became of a leg.
    fn tell_of(&mut self, rt: &impl Wait, stamp: &Stamp, act: LegAct, placed: &PlacedLeg)
        ensures { StandsStill (leg_event act placed.now ∷ []) self.old self.new }
    {
        tell_leg(rt, &mut self.door, &mut self.journal, stamp, act, placed);
    }

    /// Tells it that a leg was dropped.
    pub(crate) fn tell_dropped(&mut self, rt: &impl Wait, placed: &PlacedLeg)
        ensures { StandsStill (Drops placed.now ∷ []) self.old self.new }
    {
        let stamp = self.clock.now();
        self.tell_of(rt, &stamp, LegAct::Dropped, placed);
    }

    /// Keeps all that was told.
    pub(crate) fn keep(&mut self, rt: &impl Wait)
        ensures still { StandsStill [] self.old self.new }
        ensures kept { IsAllKept self.new.told }
    {
        keep(rt, &mut self.door, &mut self.journal);
    }

    /// The journal.
    pub(crate) fn journal(&self) -> &J
        ensures { J.told result.now ≡ self.now.told }
    {
        &self.journal
    }

    /// The note that is pending was taken.
    pub(crate) fn confirm(&mut self, rt: &impl Wait)
        ensures session { self.new.session ≡ confirm self.old.session }
        ensures wire { Tells self.old.wire self.new.wire Stays }
        ensures stream { self.new.stream ≡ self.old.stream }
        ensures told { TellsEvents self.old.told (Calls call.Confirm ∷ []) self.new.told }
    {
        self.session.confirm();
        let stamp = self.clock.now();
        self.tell(rt, &stamp, Act::Confirmed);
    }

    /// The session is over.
    pub(crate) fn abandon(&mut self, rt: &impl Wait)
        ensures session { self.new.session ≡ abandon self.old.session }
        ensures wire { Tells self.old.wire self.new.wire Stays }
        ensures stream { self.new.stream ≡ self.old.stream }
        ensures told { TellsEvents self.old.told (Calls call.Abandon ∷ []) self.new.told }
    {
        self.session.abandon();
        let stamp = self.clock.now();
        self.tell(rt, &stamp, Act::Abandoned);
    }

    /// The connection is given up, for this reason.
    pub(crate) fn break_off(&mut self, rt: &impl Wait, why: Loss)
        ensures session { self.new.session ≡ broken self.old.session }
        ensures wire { Tells self.old.wire self.new.wire Stays }
        ensures stream { self.new.stream ≡ self.old.stream }
        ensures told { TellsEvents self.old.told (Calls call.Broken ∷ []) self.new.told }
    {
        self.session.broken();
        let stamp = self.clock.now();
        self.tell(rt, &stamp, Act::Broke);
        self.hang_up(why);
    }

    /// The connection has ended for the session, for this reason: the link ends it too.
    pub(crate) fn hang_up(&mut self, why: Loss)
        ensures session { self.new.session ≡ self.old.session }
        ensures wire { Tells self.old.wire self.new.wire Stays }
        ensures stream { self.new.stream ≡ self.old.stream }
        ensures told { self.new.told ≡ self.old.told }
    {
        self.reporter.tell(Progress::Down(why));
        let _ = self.door.shut();
    }

    /// Writes a frame, once all that was told is kept. Where that fails the connection is given up.
    fn write(&mut self, rt: &impl Wait, frame: &[u8])
        ensures wire { Writes frame.now self.old self.new }
        ensures stream { self.new.stream ≡ self.old.stream }
    {
        self.keep(rt);
        match self.door.write(&self.journal, frame) {
            Ok(()) => self.timer.wrote(),
            Err(_) => self.break_off(rt, Loss::WriteFailed),
        }
    }

    /// Writes frames, in order, until one fails, once all that was told is kept. Without a frame nothing is kept.
    pub(crate) fn write_all(&mut self, rt: &impl Wait, frames: Frames)
        ensures wire { Writes (concat frames) self.old self.new }
        ensures stream { self.new.stream ≡ self.old.stream }
    {
        let frames = frames.into_vec();
        if frames.is_empty() {
            return;
        }
        self.keep(rt);
        for frame in &frames {
            match self.door.write(&self.journal, frame.as_slice()) {
                Ok(()) => self.timer.wrote(),
                Err(_) => return self.break_off(rt, Loss::WriteFailed),
            }
        }
    }

    /// Dials, and logs on where that succeeds; a failed dial is no fault of the session. It says whether the session
    /// may go on: it may not where no number is left for the Logon.
    pub(crate) fn connect<D: Dialect>(&mut self, rt: &impl Wait, dialect: &D) -> bool
        ensures moves { Moves (D.wording dialect.now) self.old self.new }
        ensures spent { result ≡ false → self.new.session ≡ self.old.session }
    {
        self.redial.dialled();
        match self.door.dial() {
            Ok(()) => self.log_on(rt, dialect),
            Err(_) => {
                self.reporter.refused();
                true
            }
        }
    }

    /// Logs on over a link that was dialled, and says whether the session may go on.
    fn log_on<D: Dialect>(&mut self, rt: &impl Wait, dialect: &D) -> bool
        ensures moves { (before : Wire) (stream : Stream) → Tells before self.old.wire Dials
            → Moves (D.wording dialect.now) (io_of self.old.session before stream self.old.told) self.new }
        ensures spent { result ≡ false → self.new.session ≡ self.old.session }
    {
        self.reader = FrameReader::new(self.alloc);
        self.timer.dialled();
        let stamp = self.clock.now();
        match self.session.connect(dialect, &stamp) {
            Ok(frame) => {
                self.tell(rt, &stamp, Act::Connected);
                self.write(rt, frame.as_slice());
                true
            }
            Err(SessionFault::NumbersSpent) => {
                self.tell(rt, &stamp, Act::Connected);
                self.hang_up(Loss::NumbersSpent);
                false
            }
            Err(SessionFault::OutOfMemory) => {
                self.break_off(rt, Loss::OutOfMemory);
                true
            }
            Err(_) => {
                self.tell(rt, &stamp, Act::Connected);
                self.break_off(rt, Loss::OutOfMemory);
                true
            }
        }
    }

    /// Sends a leg, and says whether the session took it. Where it wanted memory for that, or the order can't be
    /// written, the connection is given up.
    pub(crate) fn send<D: Dialect>(
        &mut self,
        rt: &impl Wait,
        dialect: &D,
        placed: &PlacedLeg,
    ) -> bool
        ensures { Hands (D.wording dialect.now) placed.now result self.old self.new }
    {
        self.fencing.sending(&self.session, self.timer.now());
        let stamp = self.clock.now();
        match self
            .session
            .send_leg(dialect, placed.ordinal, &placed.leg, &stamp)
        {
            Ok(frame) => {
                self.tell_of(rt, &stamp, LegAct::Sent, placed);
                self.write(rt, frame.as_slice());
                true
            }
            Err(SessionFault::OutOfMemory) => {
                self.fail(rt, &stamp, placed);
                false
            }
            Err(_) => {
                self.tell_of(rt, &stamp, LegAct::Sent, placed);
                false
            }
        }
    }

    /// There was no memory for a leg, and the connection is given up.
    fn fail(&mut self, rt: &impl Wait, stamp: &Stamp, placed: &PlacedLeg)
        ensures session { self.new.session ≡ broken self.old.session }
        ensures wire { Tells self.old.wire self.new.wire Stays }
        ensures stream { self.new.stream ≡ self.old.stream }
        ensures told { TellsEvents self.old.told (Fails placed.now ∷ []) self.new.told }
    {
        self.session.broken();
        self.tell_of(rt, stamp, LegAct::Failed, placed);
        self.hang_up(Loss::OutOfMemory);
    }

    /// Whether the session is closing in order.
    fn is_closing(&self) -> bool
        ensures { result ≡ true
            → (self.now.session.phase ≡ phase.Closing) ⊎ (self.now.session.phase ≡ phase.LoggedOut) }
    {
        matches!(self.session.phase(), Phase::Closing | Phase::LoggedOut)
    }

    /// The session is to close, and can send no leg from here on. One that is closing isn't asked again.
    pub(crate) fn close<D: Dialect>(&mut self, rt: &impl Wait, dialect: &D)
        ensures moves { Moves (D.wording dialect.now) self.old self.new }
        ensures idle { IsIdle self.new.session }
    {
        if self.is_closing() {
            return;
        }
        let stamp = self.clock.now();
        match self.session.close(dialect, &stamp) {
            Ok(step) => {
                self.tell(rt, &stamp, Act::Closed);
                self.write_all(rt, step.out);
            }
            Err(SessionFault::OutOfMemory) => self.break_off(rt, Loss::OutOfMemory),
            Err(_) => self.tell(rt, &stamp, Act::Closed),
        }
    }

    /// Hands bytes that were read to the reader.
    fn take_in(&mut self, rt: &impl Wait, bytes: &[u8])
        ensures fed { TakesIn bytes.now self.old self.new }
        ensures wire { Tells self.old.wire self.new.wire Stays }
    {
        self.timer.read();
        match self.reader.feed(bytes) {
            Ok(()) => {}
            Err(_) => self.break_off(rt, Loss::OutOfMemory),
        }
    }

    /// Reads once, as far as the buffer goes. Where that fails, or no byte comes any more, the connection is given up.
    pub(crate) fn read(&mut self, rt: &impl Wait, buf: &mut [u8])
        ensures session { MayGiveUp self.old self.new }
        ensures wire { Reads self.old.wire self.new.wire }
        ensures hears { (said : Said) → IsHearing said self.old → IsHearing said self.new }
    {
        match self.door.read(buf) {
            Ok(Got::Bytes(count)) => self.take_in(rt, &buf[..count]),
            Ok(Got::Nothing) => {}
            Ok(Got::End) => self.break_off(rt, Loss::PeerClosed),
            Err(_) => self.break_off(rt, Loss::ReadFailed),
        }
    }

    /// The next message that was read is handed to the session, while there is a connection and a message. It gives
    /// what is to be done for it, and where it has a note the words of its frame.
    pub(crate) fn hear<D: Dialect>(
        &mut self,
        rt: &impl Wait,
        dialect: &D,
    ) -> Option<(Step, ReportWords)>
        ensures asks { AsksOrMoves (D.wording dialect.now) self.old (option_map (λ heard. heard.0) result) self.new }
        ensures said { IfSome result (λ heard. Says self.old.stream heard.0.note heard.1) }
    {
        if !self.session.phase().is_connected() {
            return None;
        }
        let stamp = self.clock.now();
        match hear(
            rt,
            dialect,
            self.reopens,
            &mut self.reader,
            &mut self.session,
            &stamp,
            &mut self.door,
            &mut self.journal,
        ) {
            Heard::Nothing => None,
            Heard::Step(step, words) => {
                self.timer.heard();
                self.fencing.heard();
                self.door.heard(self.reader.waiting());
                Some((step, words))
            }
            Heard::Malformed => {
                self.door.heard(self.reader.waiting());
                self.hang_up(Loss::Ended(Ended::Malformed));
                None
            }
            Heard::Parted => {
                self.redial.parted();
                self.break_off(rt, Loss::Parted);
                None
            }
            Heard::OutOfMemory => {
                self.break_off(rt, Loss::OutOfMemory);
                None
            }
        }
    }

    /// A turn begins. Where the session is found down after a dial, the pause before the next one begins.
    pub(crate) fn begin_turn(&mut self)
        ensures { self.new ≡ self.old }
    {
        self.timer.begin_turn(self.clock.millis());
        self.fencing
            .begin_turn(self.session.phase(), self.timer.now());
        if self.session.phase() == Phase::Down {
            self.redial.found_down(self.timer.now());
            let pause = self.redial.millis_left(self.timer.now());
            self.reporter.found_down(pause);
        }
    }

    /// The session came up: where the connection ends it is dialled again at once.
    pub(crate) fn came_up(&mut self)
        ensures { self.new ≡ self.old }
    {
        self.redial.came_up();
        self.door.came_up();
    }

    /// Tells that the session is up.
    pub(crate) fn tell_up(&self) {
        self.reporter.tell(Progress::Up);
    }

    /// Tells how many legs were taken, how many of them were withdrawn and how many are in doubt, if that was told so
    /// long ago.
    pub(crate) fn tell_legs_if_due(&mut self, taken: u64, withdrawn: u64)
        ensures { self.new ≡ self.old }
    {
        if self.reporter.is_due(self.timer.now()) {
            self.tell_legs(taken, withdrawn);
        }
    }

    /// Tells how many legs were taken, how many of them were withdrawn and how many are in doubt.
    pub(crate) fn tell_legs(&mut self, taken: u64, withdrawn: u64)
        ensures { self.new ≡ self.old }
    {
        let SessionIo {
            alloc: _,
            door: _,
            journal: _,
            clock: _,
            session,
            reader: _,
            timer,
            fencing: _,
            redial: _,
            reporter,
            reopens: _,
        } = self;
        reporter.count(session, taken, withdrawn, timer.now(), timer.received());
    }

    /// Tells how many legs the book refused to withdraw.
    pub(crate) fn tell_refused(&self, refused: u64) {
        self.reporter.tell_refused(refused);
    }

    /// The milliseconds that the clock tells.
    pub(crate) fn millis(&self) -> u64 {
        self.clock.millis()
    }

    /// Whether the pause before the next dial is over.
    pub(crate) fn may_dial(&self) -> bool {
        self.redial.is_due(self.timer.now())
    }

    /// Whether nothing was written in this turn and no message heard. A session that the turn leaves down is idle too,
    /// so that no connection is dialled without a rest before; one that is over isn't.
    pub(crate) fn is_idle(&self) -> bool {
        match self.session.phase() {
            Phase::Down => true,
            Phase::Closed => false,
            Phase::LoggingOn => !self.timer.has_acted(),
            Phase::Settling => !self.timer.has_acted(),
            Phase::Up => !self.timer.has_acted(),
            Phase::Closing => !self.timer.has_acted(),
            Phase::LoggedOut => !self.timer.has_acted(),
        }
    }

    /// For how many milliseconds nothing is due, and how many a rest lasts at most.
    fn rest_millis(&self) -> u64 {
        let now = self.timer.now();
        match self.session.phase() {
            Phase::Down => self.redial.millis_left(now).min(LONGEST_REST),
            Phase::Closed => self.redial.millis_left(now).min(LONGEST_REST),
            Phase::Up => self.millis_left(now).min(LONGEST_REST_UP),
            Phase::LoggingOn => self.millis_left(now).min(LONGEST_REST),
            Phase::Settling => self.millis_left(now).min(LONGEST_REST),
            Phase::Closing => self.millis_left(now).min(LONGEST_REST),
            Phase::LoggedOut => self.millis_left(now).min(LONGEST_REST),
        }
    }

    /// For how many milliseconds nothing is due on the connection.
    fn millis_left(&self, now: u64) -> u64 {
        let left = self.timer.millis_left();
        match self.fencing.millis_left(&self.session, now) {
            Some(fence) => left.min(fence),
            None => left,
        }
    }

    /// Rests until the link has something to tell, or something is due.
    pub(crate) fn rest(&mut self)
        ensures session { self.new.session ≡ self.old.session }
        ensures wire { Tells self.old.wire self.new.wire Stays }
        ensures stream { self.new.stream ≡ self.old.stream }
        ensures told { self.new.told ≡ self.old.told }
    {
        let millis = self.rest_millis();
        self.door
            .rest(Duration::from_millis(millis.max(LEAST_REST)));
    }

    /// After so long without a write the session is told, and gives what is to be written.
    pub(crate) fn on_quiet<D: Dialect>(&mut self, rt: &impl Wait, dialect: &D) -> Option<Step>
        ensures { AsksOrMoves (D.wording dialect.now) self.old result self.new }
    {
        if !self.timer.is_quiet() {
            return None;
        }
        self.timer.restart_quiet();
        let stamp = self.clock.now();
        match self.session.quiet(dialect, &stamp) {
            Ok(step) => {
                self.tell(rt, &stamp, Act::Quieted);
                Some(step)
            }
            Err(SessionFault::OutOfMemory) => {
                self.break_off(rt, Loss::OutOfMemory);
                None
            }
            Err(_) => {
                self.tell(rt, &stamp, Act::Quieted);
                None
            }
        }
    }

    /// Whether nothing was received for so long that the exchange is asked, or a fence is due.
    fn is_asking_due(&self) -> bool {
        self.timer.is_silent() || self.fencing.is_due(&self.session, self.timer.now())
    }

    /// After so long without a message, or with a fence due, the session is told, and gives what is to be done.
    pub(crate) fn on_silence<D: Dialect>(&mut self, rt: &impl Wait, dialect: &D) -> Option<Step>
        ensures { AsksOrMoves (D.wording dialect.now) self.old result self.new }
    {
        if !self.is_asking_due() {
            return None;
        }
        self.timer.restart_if_silent();
        self.fencing
            .fenced(self.session.next_out(), self.timer.now());
        let stamp = self.clock.now();
        match self.session.silent(dialect, &stamp) {
            Ok(step) => {
                self.tell(rt, &stamp, Act::Silenced);
                Some(step)
            }
            Err(SessionFault::OutOfMemory) => {
                self.break_off(rt, Loss::OutOfMemory);
                None
            }
            Err(_) => {
                self.tell(rt, &stamp, Act::Silenced);
                None
            }
        }
    }
}
