//! What a session does with a message that it receives: it is decided, row by row.

ghost use Rattle.std.specs.Prelude.{◌≡◌, ◌≤◌, true, length};
ghost use Rattle.fix_tags.specs.Range.{is_range};
ghost use Rattle.dialect.specs.Message.{is_logon};
ghost use Rattle.dialect.specs.declared.content.Content.TheVariants as content;
ghost use Rattle.resend.specs.Judging.{judged};
ghost use Rattle.session_core.specs.Turn.{quietly, counts, notes, ends};
ghost use Rattle.session_core.specs.Receiving.{settles_told, logon_row, resend_while_settling, resend_later, resend_row, passes_fence, answers_test, in_turn, gap_fill_row, refused_row, logout_row, report_note, row, is_reset, by_number, received, receive};
ghost use Rattle.session_core.specs.Session.{SessionParts};
ghost use Rattle.session_core.specs.Kept.{standing_at};
ghost use Rattle.session_core.specs.Sound.{IsReadContent, IsRead};
ghost use Rattle.session_core.specs.Decision.{decided};

use crate::decision::{Decision, Settling};
use crate::ended::Ended;
use crate::phase::Phase;
use crate::session::Session;
use crate::session_state::SessionState;
use dialect::{Content, DialectFault, Message, Note, Report};
use fix_tags::{MAX_MESSAGE_NUMBER, SessionBody, TextRef};
use resend::{GapFill, Judged};

/// Nothing is done.
fn nothing<'a>(at: SessionState) -> Decision<'a>
    ensures turn { (s : SessionParts) → decided s result ≡ quietly (standing_at s at) }
    ensures standing { result.standing ≡ at }
    ensures room { length result.lines.items ≤ 0 }
{
    Decision::new(at, Settling::Nothing)
}

/// The connection ends, and nothing else is done.
fn ending<'a>(at: SessionState, why: Ended) -> Decision<'a>
    ensures turn { (s : SessionParts) → decided s result ≡ ends why (standing_at s at) }
    ensures expected { result.standing.expected ≡ at.expected }
    ensures room { length result.lines.items ≤ 0 }
{
    let mut decision = Decision::new(at, Settling::Nothing);
    decision.end(why);
    decision
}

/// Whether a range is one of numbers that were sent; 0 as its last number means all that was sent.
fn is_range_of(sent: u64, begin: u64, last: u64) -> bool
    ensures { result ≡ is_range sent begin last }
{
    1 <= begin && begin <= sent && (last == 0 || begin <= last)
}

/// What a report is to the book.
fn note_of(read: Result<Report, DialectFault>) -> Note
    ensures { result ≡ report_note read }
{
    match read {
        Ok(report) => Note::Report(report),
        Err(fault) => Note::Unread(fault),
    }
}

impl Session {
    /// Every leg in doubt is settled by the number that the exchange expects next (789), if it told one, and what lies
    /// between it and the session's own Logon is filled.
    fn settled_as_told<'a>(&self, at: SessionState, next: Option<u64>) -> Decision<'a>
        requires { at.logon_number ≤ 999999999 }
        ensures turn { decided self.now result ≡ settles_told (standing_at self.now at) next }
        ensures standing { result.standing ≡ at }
        ensures room { length result.lines.items ≤ 1 }
    {
        match next {
            None => Decision::new(at, Settling::Nothing),
            Some(number) => {
                let logon_number = at.logon_number;
                let mut decision = Decision::new(at, Settling::At(number));
                if number <= logon_number {
                    let fill = GapFill {
                        first: number,
                        new_number: logon_number + 1,
                    };
                    decision.fill(fill);
                }
                decision
            }
        }
    }

    /// A Logon.
    fn logon<'a>(&self, at: SessionState, due: bool, next: Option<u64>) -> Decision<'a>
        requires logon { at.logon_number ≤ 999999999 }
        requires due { due ≡ true → at.expected ≤ MAX_MESSAGE_NUMBER }
        ensures turn { decided self.now result ≡ logon_row due (standing_at self.now at) next }
        ensures room { length result.lines.items ≤ 3 }
    {
        if !at.phase.is_logging_on() {
            return ending(at, Ended::LogonAgain);
        }
        let told = if self.has_next() { next } else { None };
        if at.is_too_high(told) {
            return ending(at, Ended::BadNextExpected);
        }
        if at.is_forgotten(told) {
            return ending(at, Ended::PeerForgot);
        }
        let mut decision = self.settled_as_told(at, told);
        decision.count_if(due);
        decision.ask_if(self, !due);
        decision.write_fence(self);
        decision.come_to(Phase::Settling);
        decision
    }

    /// A ResendRequest while legs of earlier connections aren't settled: every leg in doubt is, and the range is
    /// filled.
    fn resend_settling<'a>(&self, at: SessionState, begin: u64, last: u64) -> Decision<'a>
        ensures turn { decided self.now result ≡ resend_while_settling (standing_at self.now at) begin last }
        ensures standing { result.standing ≡ at }
        ensures room { length result.lines.items ≤ 2 }
    {
        let mut decision = Decision::new(at, Settling::At(begin));
        if let Some(fill) = self.fill_to(begin, last, self.last_number()) {
            decision.fill(fill);
        }
        decision.write_fence(self);
        decision
    }

    /// A ResendRequest later: what was settled is filled.
    fn resend_settled<'a>(&self, at: SessionState, fill: Option<GapFill>) -> Decision<'a>
        ensures turn { decided self.now result ≡ resend_later fill (standing_at self.now at) }
        ensures standing { result.standing.expected ≡ at.expected }
        ensures room { length result.lines.items ≤ 1 }
    {
        match fill {
            None => ending(at, Ended::ResendInDoubt),
            Some(fill) => {
                let mut decision = Decision::new(at, Settling::Nothing);
                decision.fill(fill);
                decision
            }
        }
    }

    /// A ResendRequest.
    fn resend<'a>(&self, at: SessionState, due: bool, begin: u64, last: u64) -> Decision<'a>
        requires { due ≡ true → at.expected ≤ MAX_MESSAGE_NUMBER }
        ensures turn { decided self.now result ≡ resend_row due (standing_at self.now at) begin last }
        ensures room { length result.lines.items ≤ 3 }
    {
        if !is_range_of(self.last_number(), begin, last) {
            return ending(at, Ended::BadResend);
        }
        if at.phase.is_settling() {
            if at.has_passed(begin) {
                return ending(at, Ended::PeerForgot);
            }
            let mut decision = self.resend_settling(at, begin, last);
            decision.count_if(due);
            return decision;
        }
        let fill = self.fill_to(begin, last, at.settled);
        let mut decision = self.resend_settled(at, fill);
        decision.count_if(due);
        decision
    }

    /// A Heartbeat, by the fence that it names.
    fn fence_answered<'a>(&self, at: SessionState, fence: Option<u64>) -> Decision<'a>
        ensures turn { decided self.now result ≡ passes_fence (standing_at self.now at) fence }
        ensures standing { result.standing.expected ≡ at.expected }
        ensures room { length result.lines.items ≤ 1 }
    {
        let Some(fence) = fence else {
            return Decision::new(at, Settling::Nothing);
        };
        let passed = SessionState {
            settled: fence,
            ..at
        };
        let mut decision = Decision::new(passed, Settling::Passed(fence));
        match at.phase {
            Phase::Settling => {
                if at.close_asked {
                    decision.log_out(self);
                } else {
                    decision.come_to(Phase::Up);
                }
            }
            Phase::Closing => {
                if at.is_closing_fence(fence) {
                    decision.log_out(self);
                }
            }
            Phase::Down => {}
            Phase::LoggingOn => {}
            Phase::Up => {}
            Phase::LoggedOut => {}
            Phase::Closed => {}
        }
        decision
    }

    /// A TestRequest in its turn.
    fn test<'a>(&self, at: SessionState, id: TextRef<'a>) -> Decision<'a>
        requires { at.expected ≤ MAX_MESSAGE_NUMBER }
        ensures turn { decided self.now result ≡ counts (answers_test (standing_at self.now at) id.entry) }
        ensures room { length result.lines.items ≤ 1 }
    {
        if at.phase.is_logged_out() {
            let mut decision = nothing(at);
            decision.count();
            return decision;
        }
        let mut decision = nothing(at);
        decision.write(self, SessionBody::Heartbeat { id: Some(id) });
        decision.count();
        decision
    }

    /// A gap fill in its turn, to the number that comes next behind it.
    fn gap_fill<'a>(&self, at: SessionState, number: u64, new_number: u64) -> Decision<'a>
        requires due { number ≡ at.expected }
        requires reference { new_number ≤ 999999999 }
        ensures turn { decided self.now result ≡ gap_fill_row (standing_at self.now at) number new_number }
        ensures room { length result.lines.items ≤ 0 }
    {
        if number >= new_number {
            return ending(at, Ended::BadGapFill);
        }
        let mut at = at;
        at.expected.fill_to(new_number);
        Decision::new(at, Settling::Nothing)
    }

    /// A Reject or a BusinessReject in its turn, of the message under a number.
    fn refused<'a>(&self, at: SessionState, number: Option<u64>) -> Decision<'a>
        requires { at.expected ≤ MAX_MESSAGE_NUMBER }
        ensures turn { decided self.now result ≡ refused_row (standing_at self.now at) number }
        ensures room { length result.lines.items ≤ 0 }
    {
        let mut decision = Decision::new(at, Settling::Nothing);
        match self.leg_of(number) {
            Some(id) => decision.give(Note::Refused(id)),
            None => decision.count(),
        }
        decision
    }

    /// A Logout.
    fn logout<'a>(&self, at: SessionState) -> Decision<'a>
        ensures turn { decided self.now result ≡ logout_row (standing_at self.now at) }
        ensures room { length result.lines.items ≤ 1 }
    {
        if at.phase.is_logged_out() {
            return ending(at, Ended::LogoutDone);
        }
        let mut decision = Decision::new(at, Settling::Nothing);
        decision.write(self, SessionBody::Logout);
        decision.end(Ended::PeerLogout);
        decision
    }

    /// A message under the number that is expected, which is due, or ahead of it.
    fn row<'a>(
        &self,
        at: SessionState,
        due: bool,
        number: u64,
        content: Content<'a>,
    ) -> Decision<'a>
        requires logon { at.logon_number ≤ 999999999 }
        requires low { due ≡ true → at.expected ≤ MAX_MESSAGE_NUMBER }
        requires due { due ≡ true → number ≡ at.expected }
        requires read { IsReadContent content }
        ensures turn { decided self.now result ≡ row due (standing_at self.now at) number content.entry }
        ensures room { length result.lines.items ≤ 3 }
    {
        match content {
            Content::Session(says) => self.session_row(at, due, number, says),
            Content::ExecutionReport(read) => reported_if(at, due, read),
            Content::Order(_) => counted_if(at, due),
            Content::Other => counted_if(at, due),
        }
    }

    /// A message of the session.
    fn session_row<'a>(
        &self,
        at: SessionState,
        due: bool,
        number: u64,
        says: SessionBody<'a>,
    ) -> Decision<'a>
        requires logon { at.logon_number ≤ 999999999 }
        requires low { due ≡ true → at.expected ≤ MAX_MESSAGE_NUMBER }
        requires due { due ≡ true → number ≡ at.expected }
        requires read { IsReadContent (content.Session says) }
        ensures turn { decided self.now result ≡ row due (standing_at self.now at) number (content.Session says.entry) }
        ensures room { length result.lines.items ≤ 3 }
    {
        match says {
            SessionBody::Logon { next, .. } => self.logon(at, due, next),
            SessionBody::ResendRequest { begin, last } => self.resend(at, due, begin, last),
            SessionBody::Heartbeat { id } => {
                let fence = self.fence_of(id);
                let mut decision = self.fence_answered(at, fence);
                decision.count_if(due);
                decision
            }
            SessionBody::Logout => self.logout(at),
            SessionBody::TestRequest { id } => { if due { self.test(at, id) } else { nothing(at) } }
            SessionBody::GapFill { new_number } => {
                if due {
                    self.gap_fill(at, number, new_number)
                } else {
                    nothing(at)
                }
            }
            SessionBody::Reject { number: refused } => self.refused_if(at, due, Some(refused)),
            SessionBody::BusinessReject { number: refused } => self.refused_if(at, due, refused),
            SessionBody::Reset { .. } => counted_if(at, due),
        }
    }

    /// A Reject or a BusinessReject, of the message under a number.
    fn refused_if<'a>(&self, at: SessionState, due: bool, number: Option<u64>) -> Decision<'a>
        requires { due ≡ true → at.expected ≤ MAX_MESSAGE_NUMBER }
        ensures turn { decided self.now result
            ≡ in_turn due (standing_at self.now at) (refused_row (standing_at self.now at) number) }
        ensures room { length result.lines.items ≤ 0 }
    {
        if due {
            self.refused(at, number)
        } else {
            nothing(at)
        }
    }

    /// A message, by how its number stands to the expected one.
    fn by_number<'a>(&self, at: SessionState, message: Message<'a>) -> Decision<'a>
        requires logon { at.logon_number ≤ 999999999 }
        requires read { IsRead message }
        ensures { decided self.now result
            ≡ by_number (standing_at self.now at) message.entry
            (judged at.expected message.entry.number message.entry.poss_dup) }
    {
        let number = message.number;
        match at.expected.judge(number, message.poss_dup) {
            Judged::Due => self.row(at, true, number, message.content),
            Judged::Ahead => {
                let mut decision = self.row(at, false, number, message.content);
                decision.ask_missing(self);
                decision
            }
            Judged::Repeat => nothing(at),
            Judged::TooLow => ending(at, Ended::TooLow),
        }
    }

    /// A message, by the checks before its number's, in order.
    fn checked<'a>(&self, at: SessionState, message: Message<'a>) -> Decision<'a>
        requires logon { at.logon_number ≤ 999999999 }
        requires read { IsRead message }
        ensures { decided self.now result ≡ received (standing_at self.now at) message.entry }
    {
        if !self.is_peer_of(&message) {
            return ending(at, Ended::WrongComp);
        }
        if at.phase.is_logging_on() && !is_first(&message.content) {
            return ending(at, Ended::FirstNotLogon);
        }
        if resets(&message.content) {
            return ending(at, Ended::ResetRefused);
        }
        self.by_number(at, message)
    }

    /// A message received. Whatever it is, a note that wasn't confirmed is given up.
    pub(crate) fn on_message<'a>(&self, message: Message<'a>) -> Decision<'a>
        requires { IsRead message }
        ensures { decided self.now result ≡ receive self.now message.entry }
    {
        let standing = self.standing();
        if !standing.is_connected() {
            return nothing(standing);
        }
        let heard = SessionState {
            pending: false,
            silent: false,
            ..standing
        };
        self.checked(heard, message)
    }
}

/// Whether this is a Logon.
fn is_first(content: &Content<'_>) -> bool
    ensures { result ≡ is_logon content.now }
{
    matches!(content, Content::Session(SessionBody::Logon { .. }))
}

/// Whether the exchange wants to begin its numbers anew.
fn resets(content: &Content<'_>) -> bool
    ensures { result ≡ is_reset content.now }
{
    match content {
        Content::Session(SessionBody::Logon { reset, .. }) => *reset,
        Content::Session(SessionBody::Reset { .. }) => true,
        _ => false,
    }
}

/// A message of which nothing but its number counts.
fn counted_if<'a>(at: SessionState, due: bool) -> Decision<'a>
    requires { due ≡ true → at.expected ≤ MAX_MESSAGE_NUMBER }
    ensures turn { (s : SessionParts) → decided s result
        ≡ in_turn due (standing_at s at) (counts (quietly (standing_at s at))) }
    ensures room { length result.lines.items ≤ 0 }
{
    let mut decision = Decision::new(at, Settling::Nothing);
    if due {
        decision.count();
    }
    decision
}

/// A report, or why it can't be read.
fn reported_if<'a>(at: SessionState, due: bool, read: Result<Report, DialectFault>) -> Decision<'a>
    ensures turn { (s : SessionParts) → decided s result
        ≡ in_turn due (standing_at s at) (notes (report_note read) (standing_at s at)) }
    ensures room { length result.lines.items ≤ 0 }
{
    let mut decision = Decision::new(at, Settling::Nothing);
    if due {
        decision.give(note_of(read));
    }
    decision
}
