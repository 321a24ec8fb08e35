//! The commands on messages.

use crate::config::answer_config;
use crate::envelope::{envelope_in, moment};
use crate::reading::{answer_fields, answer_frame};
use crate::value::{answer_codes, answer_value, write_value};
use case_fields::{Buffer, expanded};
use case_text::{Answers, PlayFault, Player, words};
use fix_tags::write_envelope;
use std::alloc::Global;

/// A buffer that values and messages are written to.
#[derive(Drop)]
pub struct MessagesPlayer {
    alloc: Global,
    buffer: Buffer,
}

impl MessagesPlayer {
    /// With an empty buffer.
    pub fn new(alloc: Global) -> MessagesPlayer {
        MessagesPlayer {
            alloc,
            buffer: Buffer::new(alloc),
        }
    }

    /// Writes the message of these words.
    fn write(&mut self, text: &str, answers: &mut Answers) -> Result<(), PlayFault> {
        let text = expanded(self.alloc, text)?;
        let words = words(self.alloc, &text)?;
        let mut room = Vec::new(self.alloc);
        let envelope = envelope_in(self.alloc, &words, &mut room)?;
        let stamp = moment()?;
        self.buffer.mark()?;
        let written = write_envelope(&envelope, &stamp, &mut self.buffer.out);
        self.buffer.sent(written, answers)
    }

    /// Writes the value of these words.
    fn write_value(
        &mut self,
        word: &str,
        rest: &str,
        answers: &mut Answers,
    ) -> Result<(), PlayFault> {
        self.buffer.mark()?;
        let written = write_value(self.alloc, word, rest, &mut self.buffer.out)?;
        self.buffer.said(written, answers)
    }
}

impl Player for MessagesPlayer {
    fn begin(&mut self) -> Result<(), PlayFault> {
        self.buffer = Buffer::new(self.alloc);
        Ok(())
    }

    fn command(&mut self, line: &str, answers: &mut Answers) -> Result<(), PlayFault> {
        let (word, rest) = line.split_once(' ').unwrap_or((line, ""));
        match word {
            "write" => self.write(rest, answers),
            "read" => answer_fields(self.alloc, rest, answers),
            "read_frame" => answer_frame(self.alloc, rest, answers),
            "config" => answer_config(self.alloc, rest, answers),
            "codes" => answer_codes(self.alloc, answers),
            "buffer" | "room" | "show" => self.buffer.command(word, rest, answers),
            _ => match word.strip_prefix("write_") {
                Some(form) => self.write_value(form, rest, answers),
                None => answer_value(self.alloc, word, rest, answers),
            },
        }
    }
}
