//! What calls are made with, and the calls.

use crate::act::Act;
use crate::tell::{tell_ended, tell_refused, tell_step};
use case_text::{Answers, FrameForm, PlayFault};
use dialect::AnyDialect;
use fix_tags::{Stamp, read_envelope};
use fix_text::FrameReader;
use session_core::{Session, SessionFault, Step};
use std::alloc::Global;

/// What each call of a session is made with, and how frames are shown.
#[derive(Clone, Copy)]
pub struct CallContext {
    pub alloc: Global,
    pub dialect: AnyDialect,
    /// The time of each call.
    pub stamp: Stamp,
    pub form: FrameForm,
}

impl CallContext {
    /// The answer of a call that writes one frame.
    fn tell_frame(
        &self,
        answer: Result<Vec<u8>, SessionFault>,
        answers: &mut Answers,
    ) -> Result<(), PlayFault> {
        match answer {
            Ok(frame) => self.form.send(self.alloc, &frame, answers),
            Err(fault) => tell_refused(self.alloc, fault, answers),
        }
    }

    fn tell_step(
        &self,
        answer: Result<Step, SessionFault>,
        answers: &mut Answers,
    ) -> Result<(), PlayFault> {
        match answer {
            Ok(step) => tell_step(self.alloc, self.form, step, answers),
            Err(fault) => tell_refused(self.alloc, fault, answers),
        }
    }

    /// Hands the session the message of a frame that came. What is no frame, or a frame that is no message, isn't
    /// handed to it.
    fn hear(
        &self,
        session: &mut Session,
        bytes: &[u8],
        answers: &mut Answers,
    ) -> Result<(), PlayFault> {
        let mut reader = FrameReader::new(self.alloc);
        if reader.feed(bytes).is_err() {
            return Err(PlayFault::OutOfMemory);
        }
        let frame = match reader.next() {
            Ok(Some(frame)) => frame,
            Ok(None) => return answers.say("no frame"),
            Err(_) => return Err(PlayFault::OutOfMemory),
        };
        match read_envelope(&frame) {
            Ok(envelope) => {
                let answer = session.receive(&self.dialect, &envelope, &self.stamp);
                self.tell_step(answer, answers)
            }
            Err(fault) => {
                let text = format!(in self.alloc; "no message {fault}")?;
                answers.say(&text)
            }
        }
    }

    /// Does this to a session, and tells what it answers.
    pub fn call(
        &self,
        session: &mut Session,
        act: &Act,
        answers: &mut Answers,
    ) -> Result<(), PlayFault> {
        let dialect = &self.dialect;
        let stamp = &self.stamp;
        match act {
            Act::Connect => self.tell_frame(session.connect(dialect, stamp), answers),
            Act::Leg(ordinal, leg) => {
                self.tell_frame(session.send_leg(dialect, *ordinal, leg, stamp), answers)
            }
            Act::Frame(bytes) => self.hear(session, bytes, answers),
            Act::Quiet => self.tell_step(session.quiet(dialect, stamp), answers),
            Act::Silent => self.tell_step(session.silent(dialect, stamp), answers),
            Act::Close => self.tell_step(session.close(dialect, stamp), answers),
            Act::Malformed => tell_ended(self.alloc, session.malformed(), answers),
            Act::Confirm => {
                session.confirm();
                Ok(())
            }
            Act::Broken => {
                session.broken();
                Ok(())
            }
            Act::Abandon => {
                session.abandon();
                Ok(())
            }
        }
    }
}
