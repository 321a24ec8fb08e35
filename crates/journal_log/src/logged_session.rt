//! A session whose calls are made again, and logged.

ghost use Rattle.std.specs.Prelude.{◌≡◌, ◌∷◌, [], IfOk, IsOkUnless, MatchResult, OnOk};
ghost use Rattle.fix_text.specs.Reading.{fields_of};
ghost use Rattle.session_core.specs.Session.{new_session};
ghost use Rattle.journal_words.specs.declared.fault.WordsFault.TheVariants as words_fault;
ghost use Rattle.journal_words.specs.Deed.{timed};
ghost use Rattle.journal_words.specs.Reading.{deed_in};
ghost use Rattle.journal_log.specs.Calls.{act_call, calls_in, heard_call, leg_calls};
ghost use Rattle.journal_log.specs.Logged.{AddsLine, CantRead, Writes};

use crate::frames::{add_heard, add_sent, frame_of, frames_of};
use dialect::Dialect;
use fix_tags::{Config, Stamp, read_envelope};
use fix_text::{Frame, ReaderFault};
use journal_words::{Act, Deed, DeedLine, LegAct, WordsFault, read_deed};
use leg::PlacedLeg;
use session_core::{Frames, Session};
use std::alloc::Global;
use std::marker::Model;

/// A venue's session, without desk or book: the lines of its journal are done again, each by the call that it was on
/// the day, and what that writes is logged.
#[derive(Drop)]
pub struct LoggedSession {
    alloc: Global,
    session: Session,
}

impl Model for LoggedSession {
    ghost use Rattle.session_core.specs.Session.{SessionParts};

    ghost Value = { SessionParts };

    ghost view = { λ s. s.session };
}

impl LoggedSession {
    /// One that has done nothing.
    pub fn new(alloc: Global, config: Config) -> LoggedSession
        ensures { result ≡ new_session config }
    {
        LoggedSession {
            alloc,
            session: Session::new(alloc, config),
        }
    }

    /// No frame.
    fn nothing(&self) -> Frames
        ensures { result ≡ [] }
    {
        Frames::new(Vec::new(self.alloc))
    }

    /// The session is called again.
    fn act<D: Dialect>(
        &mut self,
        dialect: &D,
        stamp: &Stamp,
        act: Act,
    ) -> Result<Frames, WordsFault>
        ensures writes { IfOk result (λ frames.
            Writes (D.wording dialect.now) stamp.now self.old (act_call act ∷ []) frames self.new) }
        ensures only { IsOkUnless result words_fault.OutOfMemory }
    {
        match act {
            Act::Connected => frame_of(self.alloc, self.session.connect(dialect, stamp)),
            Act::Quieted => frames_of(self.alloc, self.session.quiet(dialect, stamp)),
            Act::Silenced => frames_of(self.alloc, self.session.silent(dialect, stamp)),
            Act::Closed => frames_of(self.alloc, self.session.close(dialect, stamp)),
            Act::Confirmed => {
                self.session.confirm();
                Ok(self.nothing())
            }
            Act::Broke => {
                self.session.broken();
                Ok(self.nothing())
            }
            Act::Abandoned => {
                self.session.abandon();
                Ok(self.nothing())
            }
        }
    }

    /// A leg is sent again, or dropped.
    fn leg<D: Dialect>(
        &mut self,
        dialect: &D,
        stamp: &Stamp,
        act: LegAct,
        placed: &PlacedLeg,
    ) -> Result<Frames, WordsFault>
        ensures writes { IfOk result (λ frames.
            Writes (D.wording dialect.now) stamp.now self.old (leg_calls act placed.now) frames self.new) }
        ensures only { IsOkUnless result words_fault.OutOfMemory }
    {
        match act {
            LegAct::Sent => {
                let given = self
                    .session
                    .send_leg(dialect, placed.ordinal, &placed.leg, stamp);
                frame_of(self.alloc, given)
            }
            LegAct::Dropped => Ok(self.nothing()),
            LegAct::Failed => {
                self.session.broken();
                Ok(self.nothing())
            }
        }
    }

    /// A message is received again.
    fn hear<D: Dialect>(
        &mut self,
        dialect: &D,
        stamp: &Stamp,
        message: &[u8],
    ) -> Result<Frames, WordsFault>
        ensures writes { IfOk result (λ frames. Writes (D.wording dialect.now) stamp.now self.old
            (heard_call (fields_of message.now) ∷ []) frames self.new) }
        ensures only { IsOkUnless result words_fault.OutOfMemory }
    {
        let mut places = Vec::new(self.alloc);
        let frame = match Frame::read(message, &mut places) {
            Ok(Some(frame)) => frame,
            Ok(None) => {
                let _ = self.session.malformed();
                return Ok(self.nothing());
            }
            Err(ReaderFault::OutOfMemory) => return Err(WordsFault::OutOfMemory),
        };
        match read_envelope(&frame) {
            Ok(envelope) => {
                frames_of(self.alloc, self.session.receive(dialect, &envelope, stamp))
            }
            Err(_) => {
                let _ = self.session.malformed();
                Ok(self.nothing())
            }
        }
    }

    /// A deed is done again. Where a message was received, these are its fields.
    fn do_again<D: Dialect>(
        &mut self,
        dialect: &D,
        stamp: &Stamp,
        deed: &Deed,
        message: &[u8],
    ) -> Result<Frames, WordsFault>
        ensures writes { IfOk result (λ frames. Writes (D.wording dialect.now) stamp.now self.old
            (calls_in (deed_in deed.now message.now)) frames self.new) }
        ensures only { IsOkUnless result words_fault.OutOfMemory }
    {
        match deed {
            Deed::Act(act) => self.act(dialect, stamp, *act),
            Deed::Leg(act, placed) => self.leg(dialect, stamp, *act, placed),
            Deed::Heard => self.hear(dialect, stamp, message),
        }
    }

    /// Does again what a line of the journal says, and appends its lines of the log: that of the message which was
    /// received, if one was, and behind it one for each frame that the session writes. At `OutOfMemory` the session
    /// is of no use any more; at any other fault nothing changed.
    pub fn log_line<D: Dialect>(
        &mut self,
        dialect: &D,
        line: &[u8],
        log: &mut Vec<u8>,
    ) -> Result<(), WordsFault>
        ensures { MatchResult result
            (λ _. AddsLine (D.wording dialect.now) self.old line.now log.old.items log.new.items self.new)
            (CantRead line.now log.old.items log.new.items) }
    {
        let mut message = Vec::new(self.alloc);
        let DeedLine { stamp, deed } = match read_deed(self.alloc, line, &mut message) {
            Ok(said) => said,
            Err(fault) => return Err(fault),
        };
        add_heard(self.alloc, &stamp, &deed, message.as_slice(), log)?;
        match self.do_again(dialect, &stamp, &deed, message.as_slice()) {
            Ok(frames) => {
                add_sent(self.alloc, &stamp, frames, log)?;
                Ok(())
            }
            Err(fault) => Err(fault),
        }
    }
}
