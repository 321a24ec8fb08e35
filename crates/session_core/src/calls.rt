//! The calls of a session that write messages.

ghost use Rattle.std.specs.Prelude.{IfOk, OnErr, ◌≡◌};
ghost use Rattle.dialect.specs.Framed.{IsFramed};
ghost use Rattle.dialect.specs.Message.{decoded};
ghost use Rattle.dialect.specs.Outgoing.{alone};
ghost use Rattle.session_core.specs.Turn.{quietly};
ghost use Rattle.session_core.specs.Receiving.{receive};
ghost use Rattle.session_core.specs.Calling.{answers, asked_to_close, connect, send_leg, quiet, silent, close};
ghost use Rattle.session_core.specs.Decision.{decided, Decides};
ghost use Rattle.session_core.specs.CallResult.{IsStep, Gives, TakesMemory};

use crate::decision::{Decision, Settling};
use crate::ended::Ended;
use crate::phase::Phase;
use crate::session::Session;
use crate::session_fault::SessionFault;
use crate::step::Step;
use crate::write::{logon_frame, order_frame};
use dialect::{Dialect, decode};
use fix_tags::{EnvelopeRef, SessionBody, Stamp};
use leg::Leg;

impl Session {
    /// What is done where nothing was written for a while.
    fn on_quiet<'a>(&self) -> Result<Decision<'a>, SessionFault>
        ensures { Decides self.now (quiet self.now) result }
    {
        let at = self.standing();
        if !at.is_connected() {
            return Err(SessionFault::NotConnected);
        }
        let mut decision = Decision::new(at, Settling::Nothing);
        if at.phase.is_still() {
            return Ok(decision);
        }
        if !decision.may_write(self) {
            return Err(SessionFault::NumbersSpent);
        }
        decision.put(self, SessionBody::Heartbeat { id: None });
        Ok(decision)
    }

    /// What is done where nothing was received for a while.
    fn on_silence<'a>(&self) -> Result<Decision<'a>, SessionFault>
        ensures { Decides self.now (silent self.now) result }
    {
        let mut at = self.standing();
        if !at.is_connected() {
            return Err(SessionFault::NotConnected);
        }
        if at.silent {
            let mut decision = Decision::new(at, Settling::Nothing);
            decision.end(Ended::Silent);
            return Ok(decision);
        }
        at.silent = true;
        let mut decision = Decision::new(at, Settling::Nothing);
        if at.phase.is_still() {
            return Ok(decision);
        }
        if !decision.may_write(self) {
            return Err(SessionFault::NumbersSpent);
        }
        decision.put_fence(self);
        Ok(decision)
    }

    /// What is done where the close is asked of a session that is up: its fence is written.
    fn on_close_up<'a>(&self) -> Result<Decision<'a>, SessionFault>
        requires { self.now.phase ≡ Phase.Up }
        ensures { Decides self.now (close self.now) result }
    {
        let mut at = self.standing();
        at.close_asked = true;
        at.phase = Phase::Closing;
        at.closing_fence = Some(self.next_out());
        let mut decision = Decision::new(at, Settling::Nothing);
        if !decision.may_write(self) {
            return Err(SessionFault::NumbersSpent);
        }
        decision.put_fence(self);
        Ok(decision)
    }

    /// What is done where the close is asked of a session that isn't up yet: it is remembered.
    fn on_early_close<'a>(&self) -> Decision<'a>
        ensures { decided self.now result ≡ quietly (asked_to_close self.now) }
    {
        let mut at = self.standing();
        at.close_asked = true;
        Decision::new(at, Settling::Nothing)
    }

    /// What is done where the close is asked.
    fn on_close<'a>(&self) -> Result<Decision<'a>, SessionFault>
        ensures { Decides self.now (close self.now) result }
    {
        match self.phase() {
            Phase::Down => Err(SessionFault::NotConnected),
            Phase::Closed => Err(SessionFault::NotConnected),
            Phase::Up => self.on_close_up(),
            Phase::LoggingOn => Ok(self.on_early_close()),
            Phase::Settling => Ok(self.on_early_close()),
            Phase::Closing => Ok(Decision::new(self.standing(), Settling::Nothing)),
            Phase::LoggedOut => Ok(Decision::new(self.standing(), Settling::Nothing)),
        }
    }

    /// Nothing was written for a while: a Heartbeat is, and before the exchange's Logon or after the session's own
    /// Logout nothing. S07, S03, S04.
    pub fn quiet<D: Dialect>(&mut self, dialect: &D, stamp: &Stamp) -> Result<Step, SessionFault>
        ensures gives { Gives (IsStep (D.wording dialect.now).encoding stamp.now)
            self.old (quiet self.old) result self.new }
        ensures memory { OnErr result (IfOk (quiet self.old).0 TakesMemory) }
    {
        let decision = self.on_quiet()?;
        self.carry_out(dialect, stamp, decision)
    }

    /// Nothing was received for a while: a fence is written, and before the exchange's Logon or after the session's own
    /// Logout nothing. The second time in one connection, with nothing received between, the connection ends. S07, S03,
    /// S04.
    pub fn silent<D: Dialect>(&mut self, dialect: &D, stamp: &Stamp) -> Result<Step, SessionFault>
        ensures gives { Gives (IsStep (D.wording dialect.now).encoding stamp.now)
            self.old (silent self.old) result self.new }
        ensures memory { OnErr result (IfOk (silent self.old).0 TakesMemory) }
    {
        let decision = self.on_silence()?;
        self.carry_out(dialect, stamp, decision)
    }

    /// The session is to be closed: a fence is written, and once it is answered the Logout. Before the session is up
    /// the close is remembered. S07, S03, S04.
    pub fn close<D: Dialect>(&mut self, dialect: &D, stamp: &Stamp) -> Result<Step, SessionFault>
        ensures gives { Gives (IsStep (D.wording dialect.now).encoding stamp.now)
            self.old (close self.old) result self.new }
        ensures memory { OnErr result (IfOk (close self.old).0 TakesMemory) }
    {
        let decision = self.on_close()?;
        self.carry_out(dialect, stamp, decision)
    }

    /// A message was received. The only refusal is out of memory, S04: the message is then to be handed in again.
    pub fn receive<D: Dialect>(
        &mut self,
        dialect: &D,
        envelope: &EnvelopeRef<'_>,
        stamp: &Stamp,
    ) -> Result<Step, SessionFault>
        ensures gives { Gives (IsStep (D.wording dialect.now).encoding stamp.now) self.old
            (answers (receive self.old (decoded (D.wording dialect.now).decoding envelope.now))) result self.new }
        ensures memory { OnErr result
            (TakesMemory (receive self.old (decoded (D.wording dialect.now).decoding envelope.now)).step) }
    {
        let message = decode(dialect, envelope);
        let decision = self.on_message(message);
        self.carry_out(dialect, stamp, decision)
    }

    /// Begins a connection, with a Logon. S02 in a closed session, S01 where it isn't down, S03, S04.
    pub fn connect<D: Dialect>(
        &mut self,
        dialect: &D,
        stamp: &Stamp,
    ) -> Result<Vec<u8>, SessionFault>
        ensures { Gives (λ m bytes. IsFramed (D.wording dialect.now).encoding stamp.now (alone m) bytes.items) self.old
            (connect self.old) result self.new }
    {
        match self.phase() {
            Phase::Down => {}
            Phase::Closed => return Err(SessionFault::Closed),
            Phase::LoggingOn => return Err(SessionFault::NotDown),
            Phase::Settling => return Err(SessionFault::NotDown),
            Phase::Up => return Err(SessionFault::NotDown),
            Phase::Closing => return Err(SessionFault::NotDown),
            Phase::LoggedOut => return Err(SessionFault::NotDown),
        }
        let number = self.next_out();
        if number >= self.max_number() {
            return Err(SessionFault::NumbersSpent);
        }
        let next = self.own_next();
        let out = logon_frame(self.alloc(), dialect, stamp, self.config(), number, next)?;
        self.begin();
        Ok(out)
    }

    /// Sends a leg. S05 unless the session is up, S06 unless the ordinal is above that of every leg sent before, S03,
    /// S04.
    pub fn send_leg<D: Dialect>(
        &mut self,
        dialect: &D,
        ordinal: u64,
        leg: &Leg,
        stamp: &Stamp,
    ) -> Result<Vec<u8>, SessionFault>
        ensures { Gives (λ m bytes. IsFramed (D.wording dialect.now).encoding stamp.now (alone m) bytes.items) self.old
            (send_leg self.old ordinal leg.now) result self.new }
    {
        match self.phase() {
            Phase::Up => {}
            Phase::Down => return Err(SessionFault::NotUp),
            Phase::LoggingOn => return Err(SessionFault::NotUp),
            Phase::Settling => return Err(SessionFault::NotUp),
            Phase::Closing => return Err(SessionFault::NotUp),
            Phase::LoggedOut => return Err(SessionFault::NotUp),
            Phase::Closed => return Err(SessionFault::NotUp),
        }
        if ordinal <= self.last_ordinal() {
            return Err(SessionFault::OrdinalNotGreater);
        }
        let number = self.next_out();
        if number >= self.max_number() {
            return Err(SessionFault::NumbersSpent);
        }
        leg.in_range();
        let out = order_frame(self.alloc(), dialect, stamp, self.config(), number, leg)?;
        self.log_leg(ordinal, leg)?;
        Ok(out)
    }
}
