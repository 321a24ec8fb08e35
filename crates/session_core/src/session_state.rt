//! Where a session stands.

ghost use Rattle.std.specs.Prelude.{◌≡◌, ◌≤◌, false, nat_le};
ghost use Rattle.std.specs.Option.{option_map_or};

use crate::phase::Phase;
use resend::InSeq;

/// Where a session stands, beside the numbers that it sent, the fences that it keeps and its connections.
#[derive(Clone, Copy)]
pub(crate) struct SessionState {
    pub phase: Phase,
    /// The settled number: no leg under it or below it is in doubt.
    pub settled: u64,
    /// The number of the present connection's Logon.
    pub logon_number: u64,
    /// The fence that was written when the close was asked.
    pub closing_fence: Option<u64>,
    /// The expected number that a resend request was written for last in this connection.
    pub requested: Option<u64>,
    /// A note was given and isn't confirmed.
    pub pending: bool,
    /// `silent` was called, and nothing was received since.
    pub silent: bool,
    /// What is expected of the exchange.
    pub expected: InSeq,
    pub close_asked: bool,
}

impl SessionState {
    ghost use Rattle.session_core.specs.Session.{SessionParts, is_connected};
    ghost use Rattle.session_core.specs.Kept.{standing_at};
    ghost use Rattle.session_core.specs.Receiving.{is_too_high, is_forgotten, was_requested};
    ghost use Rattle.session_core.specs.Turn.{phase_after};

    /// Whether there is a connection.
    pub fn is_connected(&self) -> bool
        ensures { result ≡ is_connected self.now.phase }
    {
        self.phase.is_connected()
    }

    /// The connection is gone, and a note that wasn't confirmed is given up.
    pub fn disconnect(&mut self, is_over: bool)
        ensures { self.new ≡ record self.old { phase = phase_after is_over self.old.phase; pending = false } }
    {
        self.phase = self.phase.after(is_over);
        self.pending = false;
    }

    /// Whether a number that the exchange expects next (789) is above the one behind this connection's Logon.
    pub fn is_too_high(&self, next: Option<u64>) -> bool
        requires { self.now.logon_number ≤ 999999999 }
        ensures { (s : SessionParts) → result ≡ is_too_high (standing_at s self.now) next }
    {
        match next {
            Some(number) => number > self.logon_number + 1,
            None => false,
        }
    }

    /// Whether the exchange had passed a number: it took, or was told to pass over, all up to the settled one.
    pub fn has_passed(&self, number: u64) -> bool
        ensures { result ≡ nat_le number self.now.settled }
    {
        number <= self.settled
    }

    /// Whether a number that the exchange expects next (789) is one that it had passed.
    pub fn is_forgotten(&self, next: Option<u64>) -> bool
        ensures { (s : SessionParts) → result ≡ is_forgotten (standing_at s self.now) next }
    {
        match next {
            Some(number) => self.has_passed(number),
            None => false,
        }
    }

    /// Whether a fence is the one that was written when the close was asked, or a later one.
    pub fn is_closing_fence(&self, fence: u64) -> bool
        ensures { result ≡ option_map_or (λ closing. nat_le closing fence) self.now.closing_fence false }
    {
        match self.closing_fence {
            Some(closing) => closing <= fence,
            None => false,
        }
    }

    /// Whether a resend request was written in this connection for the number that is still expected.
    pub fn was_requested(&self) -> bool
        ensures { (s : SessionParts) → result ≡ was_requested (standing_at s self.now) }
    {
        match self.requested {
            Some(number) => number == self.expected.expected(),
            None => false,
        }
    }
}
