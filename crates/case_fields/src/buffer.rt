//! A buffer that is written to.
ghost use Rattle.std.specs.Prelude.{◌≡◌, OnOk};

use crate::run::elided;
use case_text::{Answers, PlayFault, bytes_of, number, shown};
use std::alloc::Global;
use std::fmt::Display;

/// What was written so far, and how much of it was there before the last call.
#[derive(Drop)]
pub struct Buffer {
    alloc: Global,
    before: Vec<u8>,
    pub out: Vec<u8>,
}

impl Buffer {
    /// An empty buffer.
    pub fn new(alloc: Global) -> Buffer {
        Buffer {
            alloc,
            before: Vec::new(alloc),
            out: Vec::new(alloc),
        }
    }

    /// `buffer TEXT`: holds this text. `room N`: is empty, with room for N bytes. `show`: answers what it holds.
    pub fn command(
        &mut self,
        word: &str,
        rest: &str,
        answers: &mut Answers,
    ) -> Result<(), PlayFault> {
        match word {
            "buffer" => self.out = bytes_of(self.alloc, rest)?,
            "room" => self.make_room(number(rest)?)?,
            "show" => self.show(answers)?,
            _ => return Err(PlayFault::NotUnderstood),
        }
        Ok(())
    }

    fn make_room(&mut self, room: u64) -> Result<(), PlayFault> {
        let room = usize::try_from(room).map_err(|_| PlayFault::NotUnderstood)?;
        self.out = Vec::with_capacity(self.alloc, room)?;
        Ok(())
    }

    fn show(&self, answers: &mut Answers) -> Result<(), PlayFault> {
        let text = shown(self.alloc, &self.out)?;
        answers.say(&elided(self.alloc, &text)?)?;
        let room = self.out.capacity();
        answers.say(&format!(in self.alloc; "room {room}")?)
    }

    /// Keeps in mind what the buffer holds before a call that writes.
    pub fn mark(&mut self) -> Result<(), PlayFault>
        ensures marked { OnOk result (self.new.before.items ≡ self.old.out.items) }
        ensures same { self.new.out.items ≡ self.old.out.items }
    {
        self.before = self.out.clone()?;
        Ok(())
    }

    /// The bytes behind those that were there, unless those have changed.
    fn added(&self) -> Option<&[u8]> {
        self.out.as_slice().strip_prefix(self.before.as_slice())
    }

    /// What was written, or else how it was refused. A refusal leaves the buffer as it was.
    fn outcome<E: Display + Drop>(
        &self,
        written: Result<(), E>,
    ) -> Result<Result<String, String>, PlayFault> {
        match (written, self.added()) {
            (Ok(()), Some(added)) => {
                let text = shown(self.alloc, added)?;
                Ok(Ok(elided(self.alloc, &text)?))
            }
            (Ok(()), None) => Ok(Err(format!(in self.alloc; "the buffer changed")?)),
            (Err(fault), Some([])) => Ok(Err(format!(in self.alloc; "refused {fault}")?)),
            (Err(fault), _) => Ok(Err(format!(in self.alloc;
                "refused {fault}, and the buffer changed"
            )?)),
        }
    }

    /// Answers the frame that was written, or its refusal.
    pub fn sent<E: Display + Drop>(
        &self,
        written: Result<(), E>,
        answers: &mut Answers,
    ) -> Result<(), PlayFault> {
        match self.outcome(written)? {
            Ok(frame) => answers.send_fields(&frame),
            Err(refusal) => answers.say(&refusal),
        }
    }

    /// Answers the text that was written, or its refusal.
    pub fn said<E: Display + Drop>(
        &self,
        written: Result<(), E>,
        answers: &mut Answers,
    ) -> Result<(), PlayFault> {
        match self.outcome(written)? {
            Ok(text) | Err(text) => answers.say(&text),
        }
    }
}
