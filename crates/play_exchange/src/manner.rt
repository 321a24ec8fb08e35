//! How an exchange is called, and what it answers.

use crate::act::Act;
use case_text::{Answers, FrameForm, PlayFault};
use dialect::AnyDialect;
use exchange_core::{Exchange, ExchangeFault};
use fix_tags::{Stamp, read_envelope};
use fix_text::{Frame, FrameReader};
use std::alloc::Global;

/// With what an exchange is called, and how frames are shown.
#[derive(Clone, Copy)]
pub struct Manner {
    pub alloc: Global,
    pub dialect: AnyDialect,
    /// The time of each call.
    pub stamp: Stamp,
    pub form: FrameForm,
    /// The connection in which frames come.
    pub connection: u64,
}

impl Manner {
    fn tell_refused(&self, fault: ExchangeFault, answers: &mut Answers) -> Result<(), PlayFault> {
        let text = format!(in self.alloc; "refused {fault}")?;
        answers.say(&text)
    }

    fn tell_frames(&self, frames: &[Vec<u8>], answers: &mut Answers) -> Result<(), PlayFault> {
        for frame in frames {
            self.form.send(self.alloc, frame, answers)?;
        }
        Ok(())
    }

    /// Tells the frame of an act, if it wrote one.
    fn tell_act(
        &self,
        answer: Result<Option<Vec<u8>>, ExchangeFault>,
        answers: &mut Answers,
    ) -> Result<(), PlayFault> {
        match answer {
            Ok(Some(frame)) => self.form.send(self.alloc, &frame, answers),
            Ok(None) => Ok(()),
            Err(fault) => self.tell_refused(fault, answers),
        }
    }

    /// The exchange takes the message of a frame. A frame that is no message isn't handed to it.
    fn take(
        &self,
        exchange: &mut Exchange,
        frame: &Frame<'_>,
        answers: &mut Answers,
    ) -> Result<(), PlayFault> {
        let envelope = match read_envelope(frame) {
            Ok(envelope) => envelope,
            Err(fault) => {
                let text = format!(in self.alloc; "no message {fault}")?;
                return answers.say(&text);
            }
        };
        let answer = exchange.take(
            self.alloc,
            &self.dialect,
            self.connection,
            &envelope,
            &self.stamp,
        );
        match answer {
            Ok(frames) => self.tell_frames(&frames, answers)?,
            Err(fault) => self.tell_refused(fault, answers)?,
        }
        let text = format!(in self.alloc; "expects {}", exchange.expected())?;
        answers.say(&text)
    }

    /// The exchange takes what comes. What is no frame isn't handed to it.
    pub fn hear(
        &self,
        exchange: &mut Exchange,
        bytes: &[u8],
        answers: &mut Answers,
    ) -> Result<(), PlayFault> {
        let mut reader = FrameReader::new(self.alloc);
        if reader.feed(bytes).is_err() {
            return Err(PlayFault::OutOfMemory);
        }
        match reader.next() {
            Ok(Some(frame)) => self.take(exchange, &frame, answers),
            Ok(None) => answers.say("no frame"),
            Err(_) => Err(PlayFault::OutOfMemory),
        }
    }

    /// The exchange does this, and what it writes is told.
    pub fn act(
        &self,
        exchange: &mut Exchange,
        act: Act,
        answers: &mut Answers,
    ) -> Result<(), PlayFault> {
        let alloc = self.alloc;
        let dialect = &self.dialect;
        let stamp = &self.stamp;
        let answer = match act {
            Act::Trade { order, shares, px } => {
                exchange.trade(alloc, dialect, order, shares, px, stamp)
            }
            Act::CancelRest(order) => exchange.cancel_rest(alloc, dialect, order, stamp),
            Act::Reject(order) => exchange.reject(alloc, dialect, order, stamp),
            Act::Bust { order, trade } => exchange.bust(alloc, dialect, order, trade, stamp),
            Act::Test => exchange.test(alloc, stamp),
            Act::Disconnect => {
                exchange.drop_connection();
                Ok(None)
            }
        };
        self.tell_act(answer, answers)
    }
}
