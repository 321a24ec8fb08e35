//! A session beside its log.

ghost use Rattle.std.specs.Prelude.{◌≡◌, ◌∷◌, ◌++◌, [], OnOk};
ghost use Rattle.session_core.specs.Calling.{broken};
ghost use Rattle.fix_text.specs.FrameFields.{fields_in};
ghost use Rattle.fix_tags.specs.Reading.{envelope_read};
ghost use Rattle.session_trace.specs.declared.shown.Shown.TheVariants as shown;
ghost use Rattle.session_trace.specs.Shows.{Goes, GoesBy, Hears, IsOwn, Makes, TakesUnheard, heard_as, new_trace};

use crate::difference::Difference;
use crate::sent_frame::{Origin, SentFrame, sent_frame};
use crate::shown::Shown;
use crate::step_made::step_made;
use dialect::Dialect;
use fix_tags::{Config, Stamp, read_envelope};
use fix_text::{Frame, FrameReader};
use leg::Leg;
use session_core::{Frames, Phase, Session, SessionCall};
use std::alloc::Global;
use std::collections::VecDeque;
use std::marker::Model;

/// How many numbers may have been spent on what no log shows before a Logon.
const MAX_LOST: u64 = 10_000;

/// A session beside its log: what it wrote and the log is still to show, and what the log shows as received and the
/// session hasn't heard.
#[derive(Drop)]
pub struct Trace {
    alloc: Global,
    session: Session,
    due: VecDeque<Vec<u8>>,
    unheard: VecDeque<Vec<u8>>,
    ordinal: u64,
}

impl Model for Trace {
    ghost use Rattle.std.specs.Prelude.{map};
    ghost use Rattle.session_trace.specs.Shows.{TraceParts};

    ghost Value = { TraceParts };

    ghost view = { λ t. record {
      session = t.session;
      due = map (λ frame. frame.items) t.due.items;
      unheard = map (λ frame. frame.items) t.unheard.items;
    } };
}

/// The call that a frame is heard by.
fn heard_as<'a>(frame: &Frame<'a>) -> SessionCall<'a>
    ensures { result ≡ heard_as (envelope_read (fields_in frame.now)) }
{
    match read_envelope(frame) {
        Ok(envelope) => SessionCall::Receive(envelope),
        Err(_) => SessionCall::Malformed,
    }
}

impl Trace {
    /// A new session, with an empty log.
    pub fn new(alloc: Global, config: Config) -> Trace
        ensures { result ≡ new_trace config }
    {
        Trace {
            alloc,
            session: Session::new(alloc, config),
            due: VecDeque::new(alloc),
            unheard: VecDeque::new(alloc),
            ordinal: 0,
        }
    }

    /// Whether a frame is to be shown.
    fn is_due(&self) -> bool {
        !self.due.is_empty()
    }

    /// How many frames are unheard.
    fn unheard(&self) -> usize {
        self.unheard.len()
    }

    /// Whether the session isn't up yet.
    fn is_early(&self) -> bool {
        matches!(self.session.phase(), Phase::LoggingOn | Phase::Settling)
    }

    /// The number of the session's next message.
    fn next_out(&self) -> u64 {
        self.session.next_out()
    }

    /// The ordinal of the next leg.
    fn next_ordinal(&mut self) -> u64
        ensures { self.new ≡ self.old }
    {
        self.ordinal = self.ordinal.saturating_add(1);
        self.ordinal
    }

    /// These frames are due.
    fn put(&mut self, frames: Frames) -> Result<(), Difference>
        ensures { OnOk result (self.new ≡ record self.old { due = self.old.due ++ frames }) }
    {
        self.due.append(&mut VecDeque::from_vec(frames.into_vec()))?;
        Ok(())
    }

    /// A call is made, and what it writes is due.
    fn make<D: Dialect>(
        &mut self,
        dialect: &D,
        stamp: &Stamp,
        call: &SessionCall<'_>,
    ) -> Result<(), Difference>
        ensures { OnOk result (Makes (D.wording dialect.now) self.old call.now self.new) }
    {
        match step_made(self.alloc, &mut self.session, dialect, stamp, call) {
            Ok(Some(step)) => self.put(step.out),
            Ok(None) => Ok(()),
            Err(fault) => Err(Difference::from(fault)),
        }
    }

    /// A call that hears nothing is made.
    fn call<D: Dialect>(
        &mut self,
        dialect: &D,
        stamp: &Stamp,
        call: &SessionCall<'_>,
    ) -> Result<(), Difference>
        requires { IsOwn call.now }
        ensures { OnOk result (Goes (D.wording dialect.now) self.old self.new) }
    {
        self.make(dialect, stamp, call)
    }

    /// The first frame that is unheard, which is then heard.
    fn next_unheard(&mut self) -> Option<Vec<u8>>
        ensures { TakesUnheard self.old result self.new }
    {
        self.unheard.pop_front()
    }

    /// A frame is heard.
    fn hear_frame<D: Dialect>(
        &mut self,
        dialect: &D,
        stamp: &Stamp,
        bytes: &[u8],
    ) -> Result<(), Difference>
        ensures { OnOk result (Hears (D.wording dialect.now) self.old bytes.now self.new) }
    {
        let mut reader = FrameReader::new(self.alloc);
        if reader.feed(bytes).is_err() {
            return Err(Difference::OutOfMemory);
        }
        match reader.next() {
            Ok(None) => Ok(()),
            Ok(Some(frame)) => self.make(dialect, stamp, &heard_as(&frame)),
            Err(_) => Err(Difference::OutOfMemory),
        }
    }

    /// The first frame that is unheard is heard.
    fn hear<D: Dialect>(&mut self, dialect: &D, stamp: &Stamp) -> Result<(), Difference>
        ensures { OnOk result (Goes (D.wording dialect.now) self.old self.new) }
    {
        match self.next_unheard() {
            None => Ok(()),
            Some(bytes) => self.hear_frame(dialect, stamp, bytes.as_slice()),
        }
    }

    /// The first frame that is unheard is heard, and its note, if it gives one, taken.
    #[tactic(auto, using(crate::proofs::Going::goes_on))]
    fn hear_and_confirm<D: Dialect>(&mut self, dialect: &D, stamp: &Stamp) -> Result<(), Difference>
        ensures { OnOk result (Goes (D.wording dialect.now) self.old self.new) }
    {
        self.hear(dialect, stamp)?;
        self.call(dialect, stamp, &SessionCall::Confirm)
    }

    /// What is unheard is heard, until something is due.
    #[tactic(auto, using(crate::proofs::Going::goes_nowhere, crate::proofs::Going::goes_then))]
    fn hear_until_due<D: Dialect>(&mut self, dialect: &D, stamp: &Stamp) -> Result<(), Difference>
        ensures { OnOk result (Goes (D.wording dialect.now) self.old self.new) }
    {
        for _ in 0..self.unheard() {
            if self.is_due() {
                return Ok(());
            }
            self.hear_and_confirm(dialect, stamp)?;
        }
        Ok(())
    }

    /// The connection is lost, and with it what was due and what is unheard.
    fn break_off(&mut self)
        ensures session { self.new.session ≡ broken self.old.session }
        ensures due { self.new.due ≡ [] }
        ensures unheard { self.new.unheard ≡ [] }
    {
        self.session.broken();
        self.due.clear();
        self.unheard.clear();
    }

    /// A number is spent on a connection of which the log shows nothing.
    #[tactic(auto, using(crate::proofs::Going::goes_on))]
    fn spend<D: Dialect>(&mut self, dialect: &D, stamp: &Stamp) -> Result<(), Difference>
        ensures { OnOk result (Goes (D.wording dialect.now) self.old self.new) }
    {
        self.call(dialect, stamp, &SessionCall::Connect)?;
        self.break_off();
        Ok(())
    }

    /// So many numbers are spent so.
    #[tactic(auto, using(crate::proofs::Going::goes_nowhere, crate::proofs::Going::goes_then))]
    fn spend_all<D: Dialect>(
        &mut self,
        dialect: &D,
        stamp: &Stamp,
        count: u64,
    ) -> Result<(), Difference>
        ensures { OnOk result (Goes (D.wording dialect.now) self.old self.new) }
    {
        for _ in 0..count {
            self.spend(dialect, stamp)?;
        }
        Ok(())
    }

    /// How many numbers were spent before this one on what no log shows.
    fn lost_before(&self, number: u64) -> u64 {
        let next = self.next_out();
        if number > next && number - next <= MAX_LOST {
            return number - next;
        }
        0
    }

    /// The connection is lost: what is unheard is heard, until something is due, which is then lost.
    #[tactic(auto, using(crate::proofs::Going::goes_on))]
    fn lose_line<D: Dialect>(&mut self, dialect: &D, stamp: &Stamp) -> Result<(), Difference>
        ensures { OnOk result (Goes (D.wording dialect.now) self.old self.new) }
    {
        self.hear_until_due(dialect, stamp)?;
        self.break_off();
        Ok(())
    }

    /// A new connection, with a Logon of this number where the numbers before it may have been lost.
    #[tactic(auto, using(crate::proofs::Going::goes_on))]
    fn connect<D: Dialect>(
        &mut self,
        dialect: &D,
        stamp: &Stamp,
        number: u64,
    ) -> Result<(), Difference>
        ensures { OnOk result (Goes (D.wording dialect.now) self.old self.new) }
    {
        self.lose_line(dialect, stamp)?;
        self.spend_all(dialect, stamp, self.lost_before(number))?;
        self.call(dialect, stamp, &SessionCall::Connect)
    }

    /// What is unheard is heard, and where nothing is due then this call is made.
    #[tactic(auto, using(crate::proofs::Going::goes_on))]
    fn hear_or_call<D: Dialect>(
        &mut self,
        dialect: &D,
        stamp: &Stamp,
        call: &SessionCall<'_>,
    ) -> Result<(), Difference>
        requires { IsOwn call.now }
        ensures { OnOk result (Goes (D.wording dialect.now) self.old self.new) }
    {
        self.hear_until_due(dialect, stamp)?;
        if self.is_due() {
            return Ok(());
        }
        self.call(dialect, stamp, call)
    }

    /// The leg is sent, under the next ordinal.
    fn send<D: Dialect>(&mut self, dialect: &D, stamp: &Stamp, leg: Leg) -> Result<(), Difference>
        ensures { OnOk result (Goes (D.wording dialect.now) self.old self.new) }
    {
        let ordinal = self.next_ordinal();
        self.hear_or_call(dialect, stamp, &SessionCall::SendLeg(ordinal, leg))
    }

    /// A close that was asked before the session was up is remembered, and what is unheard is heard.
    #[tactic(auto, using(crate::proofs::Going::goes_on))]
    fn log_out<D: Dialect>(&mut self, dialect: &D, stamp: &Stamp) -> Result<(), Difference>
        ensures { OnOk result (Goes (D.wording dialect.now) self.old self.new) }
    {
        if self.is_early() {
            self.call(dialect, stamp, &SessionCall::Close)?;
            return self.hear_until_due(dialect, stamp);
        }
        self.hear_until_due(dialect, stamp)
    }

    /// A fence was sent: that of the close, or one since nothing was received.
    fn test<D: Dialect>(
        &mut self,
        dialect: &D,
        stamp: &Stamp,
        is_closing: bool,
    ) -> Result<(), Difference>
        ensures { OnOk result (Goes (D.wording dialect.now) self.old self.new) }
    {
        if is_closing {
            return self.hear_or_call(dialect, stamp, &SessionCall::Close);
        }
        self.hear_or_call(dialect, stamp, &SessionCall::Silent)
    }

    /// The calls are made that tell of a frame which was sent. The close was asked under the number of its fence.
    fn find<D: Dialect>(
        &mut self,
        dialect: &D,
        frame: SentFrame,
        closing: Option<u64>,
    ) -> Result<(), Difference>
        ensures { OnOk result (Goes (D.wording dialect.now) self.old self.new) }
    {
        let SentFrame {
            number,
            stamp,
            origin,
        } = frame;
        match origin {
            Origin::Logon => self.connect(dialect, &stamp, number),
            Origin::Order(leg) => self.send(dialect, &stamp, leg),
            Origin::Heartbeat => self.hear_or_call(dialect, &stamp, &SessionCall::Quiet),
            Origin::Test => self.test(dialect, &stamp, closing == Some(number)),
            Origin::Logout => self.log_out(dialect, &stamp),
            Origin::Answer => self.hear_until_due(dialect, &stamp),
        }
    }

    /// The calls are made that a frame tells of, where it is a message of a session.
    fn find_calls<D: Dialect>(
        &mut self,
        dialect: &D,
        frame: &[u8],
        closing: Option<u64>,
    ) -> Result<(), Difference>
        ensures { OnOk result (Goes (D.wording dialect.now) self.old self.new) }
    {
        match sent_frame(self.alloc, dialect, frame)? {
            Some(sent) => self.find(dialect, sent, closing),
            None => Ok(()),
        }
    }

    /// The first frame that is due is shown, and is this one.
    fn show(&mut self, frame: &Vec<u8>) -> Result<(), Difference>
        ensures { OnOk result (self.old ≡ record self.new { due = frame.now.items ∷ self.new.due }) }
    {
        match self.due.pop_front() {
            None => Err(Difference::Nothing),
            Some(first) => {
                if first.as_slice() == frame.as_slice() {
                    return Ok(());
                }
                Err(Difference::Writes(first))
            }
        }
    }

    /// A frame is shown as sent, which the session writes.
    #[tactic(auto, using(crate::proofs::Going::goes_sent))]
    fn send_shown<D: Dialect>(
        &mut self,
        dialect: &D,
        frame: &Vec<u8>,
        closing: Option<u64>,
    ) -> Result<(), Difference>
        ensures { OnOk result (GoesBy (D.wording dialect.now) (shown.Sent frame.now) self.old self.new) }
    {
        self.find_calls(dialect, frame.as_slice(), closing)?;
        self.show(frame)
    }

    /// A frame is received, and is to be heard.
    fn receive(&mut self, frame: &Vec<u8>) -> Result<(), Difference>
        ensures { OnOk result
            (self.new ≡ record self.old { unheard = self.old.unheard ++ frame.now.items ∷ [] }) }
    {
        self.unheard
            .push_back(Vec::from_slice(self.alloc, frame.as_slice())?)?;
        Ok(())
    }

    /// The next line of the log is what the session writes, or what it is to hear. A fence is that of a close where it
    /// has the number that is given for one. An `Err` tells what the session writes in place of the line.
    pub fn take<D: Dialect>(
        &mut self,
        dialect: &D,
        line: &Shown,
        closing: Option<u64>,
    ) -> Result<(), Difference>
        ensures { OnOk result (GoesBy (D.wording dialect.now) line.now self.old self.new) }
    {
        match line {
            Shown::Sent(frame) => self.send_shown(dialect, frame, closing),
            Shown::Received(frame) => self.receive(frame),
        }
    }
}
