//! What a call of a session is to do: it is decided, and not done yet.

ghost use Rattle.std.specs.Prelude.{◌≡◌, ◌≤◌, ◌<◌, ◌+◌, [], Some, None, true, false, not, length, count_by};
ghost use Rattle.session_core.specs.Session.{next_out, may_write};
ghost use Rattle.session_core.specs.Turn.{with_session, puts, writes, puts_fence, writes_fence, asks, fills, counts, ends_turn};
ghost use Rattle.dialect.specs.declared.content.Content.TheVariants as content;
ghost use Rattle.fix_tags.specs.declared.session_body.SessionBody.TheVariants.{Logout};
ghost use Rattle.session_core.specs.declared.line.Line.{Line as ALine};
ghost use Rattle.session_core.specs.Session.{SessionParts};
ghost use Rattle.session_core.specs.Receiving.{counts_if, asks_if, asks_missing};
ghost use Rattle.session_core.specs.Decision.{decided};

use crate::ended::Ended;
use crate::line::{Line, Says};
use crate::phase::Phase;
use crate::session::Session;
use crate::session_state::SessionState;
use arrayvec::ArrayVec;
use dialect::Note;
use fix_tags::{MAX_MESSAGE_NUMBER, SessionBody};
use resend::GapFill;

/// The most messages that a call writes.
const MAX_LINES: usize = 4;

/// How the legs in doubt are settled.
#[derive(Clone, Copy)]
pub(crate) enum Settling {
    Nothing,
    /// This fence was answered: those below it are taken.
    Passed(u64),
    /// Those below this number are taken, and the others withdrawn.
    At(u64),
}

/// What a call is to do: the messages that it writes, what it hands on, and where the session stands after it.
#[derive(Drop)]
pub(crate) struct Decision<'a> {
    pub lines: ArrayVec<Line<'a>, MAX_LINES>,
    pub note: Option<Note>,
    pub ended: Option<Ended>,
    pub settling: Settling,
    pub standing: SessionState,
}

impl<'a> Decision<'a> {
    /// Nothing is written or handed on yet.
    pub fn new(standing: SessionState, settling: Settling) -> Decision<'a>
        ensures { result ≡ record {
          lines = record { items = [] };
          note = None;
          ended = None;
          settling = settling;
          standing = standing;
        } }
    {
        Decision {
            lines: ArrayVec::new(),
            note: None,
            ended: None,
            settling,
            standing,
        }
    }

    /// The number of the next message.
    fn next_number(&self, before: &Session) -> u64
        ensures value { result ≡ next_out (decided before.now self.now).session }
        ensures small { result ≤ 1000000003 }
    {
        before.number_after(spent_by(self.lines.as_slice()))
    }

    /// Whether a number is left for a message.
    pub fn may_write(&self, before: &Session) -> bool
        ensures { result ≡ may_write (decided before.now self.now).session }
    {
        self.next_number(before) < before.max_number()
    }

    /// A message under the next number.
    pub fn put(&mut self, before: &Session, says: SessionBody<'a>)
        requires { length self.old.lines.items < MAX_LINES }
        ensures turn { decided before.now self.new ≡ puts (content.Session says.entry) (decided before.now self.old) }
        ensures room { length self.new.lines.items ≤ length self.old.lines.items + 1 }
    {
        let number = self.next_number(before);
        self.lines.push(Line {
            number,
            poss_dup: false,
            says: Says::Body(says),
        });
    }

    /// A message under the next number, where one is left.
    pub fn write(&mut self, before: &Session, says: SessionBody<'a>)
        requires { length self.old.lines.items < MAX_LINES }
        ensures turn { decided before.now self.new ≡ writes (content.Session says.entry) (decided before.now self.old) }
        ensures room { length self.new.lines.items ≤ length self.old.lines.items + 1 }
    {
        if self.may_write(before) {
            self.put(before, says);
        }
    }

    /// A fence under the next number.
    pub fn put_fence(&mut self, before: &Session)
        requires { length self.old.lines.items < MAX_LINES }
        ensures turn { decided before.now self.new ≡ puts_fence (decided before.now self.old) }
        ensures room { length self.new.lines.items ≤ length self.old.lines.items + 1 }
    {
        let number = self.next_number(before);
        self.lines.push(Line {
            number,
            poss_dup: false,
            says: Says::Fence,
        });
    }

    /// A fence, where a number is left for it.
    pub fn write_fence(&mut self, before: &Session)
        requires { length self.old.lines.items < MAX_LINES }
        ensures turn { decided before.now self.new ≡ writes_fence (decided before.now self.old) }
        ensures room { length self.new.lines.items ≤ length self.old.lines.items + 1 }
    {
        if self.may_write(before) {
            self.put_fence(before);
        }
    }

    /// What is missing is asked for, where a number is left for it.
    pub fn ask(&mut self, before: &Session)
        requires { length self.old.lines.items < MAX_LINES }
        ensures turn { decided before.now self.new ≡ asks (decided before.now self.old) }
        ensures room { length self.new.lines.items ≤ length self.old.lines.items + 1 }
    {
        if self.may_write(before) {
            let begin = self.standing.expected.expected();
            self.standing.requested = Some(begin);
            self.put(before, SessionBody::ResendRequest { begin, last: 0 });
        }
    }

    /// What is missing is asked for, where that is wanted and a number is left for it.
    pub fn ask_if(&mut self, before: &Session, wanted: bool)
        requires { length self.old.lines.items < MAX_LINES }
        ensures turn { decided before.now self.new ≡ asks_if wanted (decided before.now self.old) }
        ensures room { length self.new.lines.items ≤ length self.old.lines.items + 1 }
    {
        if wanted {
            self.ask(before);
        }
    }

    /// What is missing is asked for, unless it was in this connection, or the connection has ended, or nothing may be
    /// written any more.
    pub fn ask_missing(&mut self, before: &Session)
        requires { length self.old.lines.items < MAX_LINES }
        ensures { decided before.now self.new ≡ asks_missing (decided before.now self.old) }
    {
        if self.ended.is_some() {
            return;
        }
        if self.standing.phase.is_logged_out() || self.standing.was_requested() {
            return;
        }
        self.ask(before);
    }

    /// A gap fill, under the first number that it stands for.
    pub fn fill(&mut self, fill: GapFill)
        requires { length self.old.lines.items < MAX_LINES }
        ensures turn { (s : SessionParts) → decided s self.new ≡ fills fill (decided s self.old) }
        ensures standing { self.new.standing ≡ self.old.standing }
        ensures room { length self.new.lines.items ≤ length self.old.lines.items + 1 }
    {
        self.lines.push(Line {
            number: fill.first,
            poss_dup: true,
            says: Says::Body(SessionBody::GapFill {
                new_number: fill.new_number,
            }),
        });
    }

    /// The message received is counted.
    pub fn count(&mut self)
        requires { self.old.standing.expected ≤ MAX_MESSAGE_NUMBER }
        ensures turn { (s : SessionParts) → decided s self.new ≡ counts (decided s self.old) }
        ensures lines { self.new.lines ≡ self.old.lines }
    {
        self.standing.expected.advance();
    }

    /// The message received is counted, where it is due and the connection goes on.
    pub fn count_if(&mut self, due: bool)
        requires { due ≡ true → self.old.standing.expected ≤ MAX_MESSAGE_NUMBER }
        ensures turn { (s : SessionParts) → decided s self.new ≡ counts_if due (decided s self.old) }
        ensures lines { self.new.lines ≡ self.old.lines }
    {
        if due && self.ended.is_none() {
            self.standing.expected.advance();
        }
    }

    /// The session comes to a phase.
    pub fn come_to(&mut self, phase: Phase)
        ensures { self.new ≡ record self.old { standing = record self.old.standing { phase = phase } } }
    {
        self.standing.phase = phase;
    }

    /// A note is given. Its message is counted once it is confirmed.
    pub fn give(&mut self, note: Note)
        ensures { self.new ≡ record self.old
            { note = Some note; standing = record self.old.standing { pending = true } } }
    {
        self.note = Some(note);
        self.standing.pending = true;
    }

    /// The connection ends.
    pub fn end(&mut self, why: Ended)
        ensures turn { (s : SessionParts) → decided s self.new ≡ ends_turn why (decided s self.old) }
        ensures expected { self.new.standing.expected ≡ self.old.standing.expected }
        ensures lines { self.new.lines ≡ self.old.lines }
    {
        self.ended = Some(why);
        self.standing.disconnect(why.is_peer_logout());
    }

    /// The Logout is written, and from then on nothing but gap fills.
    pub fn log_out(&mut self, before: &Session)
        requires { length self.old.lines.items < MAX_LINES }
        ensures turn { let turn = writes (content.Session Logout) (decided before.now self.old) in
            decided before.now self.new ≡ with_session (record turn.session { phase = Phase.LoggedOut }) turn }
        ensures room { length self.new.lines.items ≤ length self.old.lines.items + 1 }
    {
        self.write(before, SessionBody::Logout);
        self.standing.phase = Phase::LoggedOut;
    }
}

/// How many numbers these messages spend.
fn spent_by(lines: &[Line<'_>]) -> usize
    ensures { result ≡ count_by (λ (line : ALine). not line.poss_dup) lines.now }
{
    lines.iter().filter(|line| !line.poss_dup).count()
}
