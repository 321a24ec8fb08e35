//! When a worker has its session write a fence though messages come.

ghost use Rattle.std.specs.Prelude.{◌≡◌, ◌&&◌, not, true, false, Some, ◌↔◌, IsTrue};
ghost use Rattle.resend.specs.Window.{window};
ghost use Rattle.session_worker.specs.Timing.{fence_wait, fence_left, is_by_turns};

use crate::Pace;
use session_core::{Phase, Session};

/// For how many milliseconds a leg stays in doubt, at least, until a fence is written for it.
const DOUBT_MILLIS: u64 = 1_000;

/// For how many milliseconds an answer to a fence is waited for while messages come, until another one is written.
const ANSWER_MILLIS: u64 = 10_000;

/// What a worker keeps of its fences: since when the next one is waited for, the number of the last, and whether a
/// message came behind it. Only then is another one written: the second time without a message the connection ends.
#[derive(Drop)]
pub(crate) struct Fencing {
    by_turns: bool,
    phase: Phase,
    since: u64,
    number: u64,
    has_heard: bool,
}

impl Fencing {
    /// No fence was written yet. By turns none is written while messages come.
    pub fn new(pace: Pace) -> Fencing
        ensures { result.by_turns ≡ is_by_turns pace }
    {
        Fencing {
            by_turns: match pace {
                Pace::Turns {
                    quiet_turns: _,
                    silent_turns: _,
                } => true,
                Pace::Time => false,
            },
            phase: Phase::Down,
            since: 0,
            number: 0,
            has_heard: false,
        }
    }

    /// A turn begins at this moment. In a new phase an answer is waited for from then on.
    pub fn begin_turn(&mut self, phase: Phase, moment: u64) {
        if self.phase != phase {
            self.phase = phase;
            self.since = moment;
        }
    }

    /// A leg is to be sent at this moment. Where none is in doubt it is waited for from then on.
    pub fn sending(&mut self, session: &Session, moment: u64) {
        if !session.in_doubt() {
            self.since = moment;
        }
    }

    /// A message was received.
    pub fn heard(&mut self)
        ensures { self.new ≡ record self.old { has_heard = true } }
    {
        self.has_heard = true;
    }

    /// A fence is to be written at this moment, under this number.
    pub fn fenced(&mut self, number: u64, moment: u64)
        ensures { self.new ≡ record self.old { since = moment; number = number; has_heard = false } }
    {
        self.since = moment;
        self.number = number;
        self.has_heard = false;
    }

    /// For how many milliseconds from this moment on no fence is due, if one will be.
    pub fn millis_left(&self, session: &Session, moment: u64) -> Option<u64>
        ensures { result ≡ fence_left (not self.now.by_turns && self.now.has_heard)
            (fence_wait session.now.phase (window session.now.log) self.now.number) self.now.since moment }
    {
        if self.by_turns || !self.has_heard {
            return None;
        }
        let wait = self.wait(session)?;
        Some(wait.saturating_sub(moment.saturating_sub(self.since)))
    }

    /// Whether a fence is due at this moment.
    pub fn is_due(&self, session: &Session, moment: u64) -> bool
        ensures { IsTrue result ↔ (fence_left (not self.now.by_turns && self.now.has_heard)
            (fence_wait session.now.phase (window session.now.log) self.now.number) self.now.since moment ≡ Some 0) }
    {
        self.millis_left(session, moment) == Some(0)
    }

    /// For how many milliseconds a fence is put off in the session's phase, if one is written there.
    fn wait(&self, session: &Session) -> Option<u64>
        ensures { result ≡ fence_wait session.now.phase (window session.now.log) self.now.number }
    {
        match session.phase() {
            Phase::Up => {
                let first = session.doubts().first()?;
                Some(if first.number < self.number {
                    ANSWER_MILLIS
                } else {
                    DOUBT_MILLIS
                })
            }
            Phase::Settling => Some(ANSWER_MILLIS),
            Phase::Closing => Some(ANSWER_MILLIS),
            Phase::Down => None,
            Phase::LoggingOn => None,
            Phase::LoggedOut => None,
            Phase::Closed => None,
        }
    }
}
