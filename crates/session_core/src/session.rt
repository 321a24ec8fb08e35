//! A session with an exchange.

ghost use Rattle.std.specs.Prelude.{length, ◌≡◌, ◌≤◌, ◌<◌, ◌+◌, true, IfOk, OnOk, OnErr, IsOkUnless};

use crate::commit::{keep, let_go, settle, spend};
use crate::decision::Decision;
use crate::ended::Ended;
use crate::fence::first_named;
use crate::phase::Phase;
use crate::session_fault::SessionFault;
use crate::session_state::SessionState;
use crate::step::LegIds;
use dialect::Message;
use fix_tags::{Config, TextRef};
use leg::{Leg, LegId, LegState};
use resend::{GapFill, InSeq, OutLog, Sent};
use std::alloc::Global;
use std::marker::Model;

/// The dispatcher's session with one exchange, over all the connections of a day.
#[derive(Drop)]
pub struct Session {
    config: Config,
    log: OutLog,
    fences: Vec<u64>,
    connection: u64,
    standing: SessionState,
}

impl Model for Session {
    ghost use Rattle.session_core.specs.Session.{SessionParts};

    ghost Value = { SessionParts };

    ghost use Rattle.session_core.specs.Kept.{viewed, IsKept};

    ghost view = { λ s. viewed s.config s.log.entries s.fences.items s.connection s.standing };

    ghost invariant = { λ s. IsKept s.log.max_number
        (viewed s.config s.log.entries s.fences.items s.connection s.standing) };
}

impl Session {
    ghost use Rattle.session_core.specs.Session.{new_session, next_out, may_write, has_doubt, leg_state};
    ghost use Rattle.std.specs.Option.{option_and_then};
    ghost use Rattle.dialect.specs.Addressed.{is_for};
    ghost use Rattle.session_core.specs.Kept.{standing_at};
    ghost use Rattle.session_core.specs.Sound.{IsSound};
    ghost use Rattle.session_core.specs.Decision.{decided};
    ghost use Rattle.resend.specs.Log.{last_number, last_ordinal, leg_at, fill_for, doubt_from};
    ghost use Rattle.resend.specs.Window.{window};
    ghost use Rattle.session_core.specs.Receiving.{named_fence, confirm};
    ghost use Rattle.session_core.specs.Calling.{own_next, connecting, sending, broken, malformed, abandon};

    /// A session that has done nothing, and is down.
    pub fn new(alloc: Global, config: Config) -> Session
        ensures { result ≡ new_session config }
    {
        let max_number = config.max_number();
        Session {
            config,
            log: OutLog::new(alloc, max_number),
            fences: Vec::new(alloc),
            connection: 0,
            standing: SessionState {
                phase: Phase::Down,
                settled: 0,
                logon_number: 0,
                closing_fence: None,
                requested: None,
                pending: false,
                silent: false,
                expected: InSeq::new(),
                close_asked: false,
            },
        }
    }

    /// How far the session has come.
    pub fn phase(&self) -> Phase
        ensures { result ≡ self.now.phase }
    {
        self.standing.phase
    }

    /// How many connections there were, with the present one.
    pub fn connection(&self) -> u64
        ensures { result ≡ self.now.connection }
    {
        self.connection
    }

    /// The number of the next message that is sent, from 1.
    pub fn next_out(&self) -> u64
        ensures { result ≡ next_out self.now }
    {
        self.log.next_number()
    }

    /// The number that is expected of the exchange's next message, from 1.
    pub fn next_in(&self) -> u64
        ensures { result ≡ self.now.expected }
    {
        self.standing.expected.expected()
    }

    /// Whether some leg was sent and isn't settled.
    pub fn in_doubt(&self) -> bool
        ensures { result ≡ has_doubt self.now }
    {
        self.log.in_doubt()
    }

    /// The legs in doubt, in the order of their numbers and so of their ordinals.
    pub fn doubts(&self) -> &[Sent]
        ensures { result.now ≡ window self.now.log }
    {
        self.log.window()
    }

    /// How far the leg of an ordinal is settled, if it was sent.
    pub fn leg_state(&self, ordinal: u64) -> Option<LegState>
        ensures { result ≡ leg_state self.now ordinal }
    {
        self.log.state(ordinal)
    }

    /// The number behind so many more than were sent.
    pub(crate) fn number_after(&self, more: usize) -> u64
        requires { more ≤ 4 }
        ensures value { result ≡ next_out self.now + more }
        ensures small { result ≤ 1000000003 }
    {
        self.log.next_number() + more as u64
    }

    /// The number that no message may have.
    pub(crate) fn max_number(&self) -> u64
        ensures value { result ≡ self.now.config.max_number }
        ensures small { result ≤ 999999999 }
    {
        self.config.max_number()
    }

    /// The two ends, and how far numbers go.
    pub(crate) fn config(&self) -> &Config
        ensures value { result.now ≡ self.now.config }
        ensures sound { IsSound self.now }
    {
        &self.config
    }

    /// The number that a Logon says is expected next (789), where the venue chose to be told it.
    pub(crate) fn own_next(&self) -> Option<u64>
        ensures { result ≡ own_next self.now }
    {
        if self.config.has_next() {
            Some(self.standing.expected.expected())
        } else {
            None
        }
    }

    /// The ordinal of the last leg sent, 0 at first.
    pub(crate) fn last_ordinal(&self) -> u64
        ensures { result ≡ last_ordinal self.now.log }
    {
        self.log.last_ordinal()
    }

    /// A new connection, whose Logon has the next number. What was of the last one is gone.
    pub(crate) fn begin(&mut self)
        requires { may_write self.old ≡ true }
        ensures { self.new ≡ connecting self.old }
    {
        let logon_number = self.log.next_number();
        let _ = self.log.push_admin();
        self.fences.clear();
        self.connection += 1;
        self.standing = SessionState {
            phase: Phase::LoggingOn,
            logon_number,
            closing_fence: None,
            requested: None,
            pending: false,
            silent: false,
            ..self.standing
        };
    }

    /// The next number is spent on a leg, which is then in doubt.
    pub(crate) fn log_leg(&mut self, ordinal: u64, leg: &Leg) -> Result<(), SessionFault>
        requires up { self.old.phase ≡ Phase.Up }
        requires above { last_ordinal self.old.log < ordinal }
        requires left { may_write self.old ≡ true }
        ensures ok { OnOk result (self.new ≡ sending self.old ordinal leg.now) }
        ensures err { OnErr result (self.new ≡ self.old) }
        ensures refusal { IsOkUnless result SessionFault.OutOfMemory }
    {
        match self.log.push_leg(ordinal, leg.id) {
            Ok(_) => Ok(()),
            Err(_) => Err(SessionFault::OutOfMemory),
        }
    }

    /// What the session's memory is taken from.
    pub(crate) fn alloc(&self) -> Global {
        *self.fences.allocator()
    }

    /// The legs in doubt under a number or above it.
    pub(crate) fn legs_from(&self, number: u64) -> Result<LegIds, SessionFault>
        ensures ok { IfOk result (λ ids. ids ≡ doubt_from number self.now.log) }
        ensures refusal { IsOkUnless result SessionFault.OutOfMemory }
        ensures some { OnErr result (0 < length (doubt_from number self.now.log)) }
    {
        match self.log.legs_from(number) {
            Ok(ids) => Ok(LegIds::new(ids)),
            Err(_) => Err(SessionFault::OutOfMemory),
        }
    }

    /// What was decided is put in place. A place for each fence is reserved first, and nothing else takes memory.
    pub(crate) fn commit(&mut self, decision: &Decision<'_>) -> Result<(), SessionFault>
        requires { IsSound (decided self.old decision.now).session }
        ensures ok { OnOk result (self.new ≡ (decided self.old decision.now).session) }
        ensures err { OnErr result (self.new ≡ self.old) }
        ensures refusal { IsOkUnless result SessionFault.OutOfMemory }
        ensures some { OnErr result (0 < length decision.now.lines.items) }
    {
        let lines = decision.lines.as_slice();
        self.fences.reserve(lines.len())?;
        settle(&mut self.log, decision.settling);
        spend(&mut self.log, lines);
        let_go(&mut self.fences, decision.settling);
        keep(&mut self.fences, lines);
        self.standing = decision.standing;
        Ok(())
    }

    /// Where the session stands.
    pub(crate) fn standing(&self) -> SessionState
        ensures at { standing_at self.now result ≡ self.now }
        ensures sound { IsSound self.now }
        ensures logon { result.logon_number ≤ 999999999 }
    {
        self.standing
    }

    /// Whether a message is from the peer to this end.
    pub(crate) fn is_peer_of(&self, message: &Message<'_>) -> bool
        ensures { result ≡ is_for self.now.config message.now }
    {
        message.from.as_bytes() == self.config.peer().as_bytes()
            && message.to.as_bytes() == self.config.me().as_bytes()
    }

    /// The last number sent, 0 at first.
    pub(crate) fn last_number(&self) -> u64
        ensures { result ≡ last_number self.now.log }
    {
        self.log.next_number() - 1
    }

    /// Whether each Logon says which number it expects next (789).
    pub(crate) fn has_next(&self) -> bool
        ensures { result ≡ self.now.config.has_next }
    {
        self.config.has_next()
    }

    /// What a resend request is answered with, cut at a number.
    pub(crate) fn fill_to(&self, begin: u64, last: u64, top: u64) -> Option<GapFill>
        ensures { result ≡ fill_for begin last top self.now.log }
    {
        self.log.answer(begin, last, top)
    }

    /// The leg that was sent under a number, if there is one.
    pub(crate) fn leg_of(&self, number: Option<u64>) -> Option<LegId>
        ensures { result ≡ option_and_then (λ n. leg_at n self.now.log) number }
    {
        match number {
            Some(number) => self.log.leg_at(number),
            None => None,
        }
    }

    /// The fence of this connection that an id names.
    pub(crate) fn fence_of(&self, id: Option<TextRef<'_>>) -> Option<u64>
        ensures { result ≡ named_fence self.now id.entry }
    {
        match id {
            Some(id) => first_named(self.fences.as_slice(), id.as_bytes()),
            None => None,
        }
    }

    /// The note that is pending was taken, and its message is counted. With none pending nothing happens.
    pub fn confirm(&mut self)
        ensures { self.new ≡ confirm self.old }
    {
        if self.standing.pending {
            self.standing.pending = false;
            self.standing.expected.advance();
        }
    }

    /// A frame came that is no message: the connection is to be ended, for the reason given. Down and closed sessions
    /// give none.
    pub fn malformed(&mut self) -> Option<Ended>
        ensures { (result, self.new) ≡ malformed self.old }
    {
        if !self.standing.is_connected() {
            return None;
        }
        self.standing.disconnect(false);
        Some(Ended::Malformed)
    }

    /// The connection is gone. In a down or closed session nothing happens.
    pub fn broken(&mut self)
        ensures { self.new ≡ broken self.old }
    {
        if self.standing.is_connected() {
            self.standing.disconnect(false);
        }
    }

    /// The session is over. Legs in doubt stay so.
    pub fn abandon(&mut self)
        ensures { self.new ≡ abandon self.old }
    {
        self.standing.phase = Phase::Closed;
        self.standing.pending = false;
    }
}
