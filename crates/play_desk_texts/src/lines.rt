//! The lines of a desk: what a case's lines ask for.

use crate::say::say;
use case_text::{Answers, PlayFault, bytes_of, number, words};
use desk_answers::Answer;
use desk_words::VenueName;
use std::alloc::Global;
use sweep_text::{Command, LineFault, read_line, write_sweep};

/// The most venues of a desk.
const MAX_VENUES: usize = 16;

/// The venues of a desk by their names, and how many lines were read.
#[derive(Drop)]
pub struct Lines {
    alloc: Global,
    names: Vec<VenueName>,
    count: u64,
}

impl Lines {
    /// A desk of no venues, of which no line was read.
    pub fn new(alloc: Global) -> Lines {
        Lines {
            alloc,
            names: Vec::new(alloc),
            count: 0,
        }
    }

    /// Names the venues, as `NYSE ARCA`.
    pub fn name_venues(&mut self, text: &str) -> Result<(), PlayFault> {
        for word in words(self.alloc, text)?.iter() {
            let name = VenueName::new(word.as_bytes()).ok_or(PlayFault::NotUnderstood)?;
            self.names.push(name)?;
        }
        Ok(())
    }

    /// What a command asks for; a sweep as it is written.
    fn say_command(&self, command: Command, answers: &mut Answers) -> Result<(), PlayFault> {
        match command {
            Command::Nothing => answers.say("nothing"),
            Command::Status => answers.say("status"),
            Command::Close => answers.say("close"),
            Command::Sweep(submission) => {
                let legs = submission.sweep.legs.as_slice();
                let reference = submission.reference.as_ref();
                let text = write_sweep(self.alloc, &self.names, reference, legs)?;
                answers.say(text.as_str())
            }
        }
    }

    /// Reads a line.
    fn read_bytes(&mut self, line: &[u8], answers: &mut Answers) -> Result<(), PlayFault> {
        if self.names.len() > MAX_VENUES {
            return Err(PlayFault::NotUnderstood);
        }
        self.count = self.count.saturating_add(1);
        let number = self.count;
        match read_line(self.alloc, &self.names, line) {
            Ok(command) => self.say_command(command, answers),
            Err(LineFault::OutOfMemory) => Err(PlayFault::OutOfMemory),
            Err(fault) => say(self.alloc, &Answer::BadLine { number, fault }, answers),
        }
    }

    /// Reads the line of this text.
    pub fn read(&mut self, text: &str, answers: &mut Answers) -> Result<(), PlayFault> {
        let line = bytes_of(self.alloc, text)?;
        self.read_bytes(&line, answers)
    }

    /// Reads a line of so many spaces.
    pub fn read_spaces(&mut self, count: &str, answers: &mut Answers) -> Result<(), PlayFault> {
        let count = usize::try_from(number(count)?).map_err(|_| PlayFault::NotUnderstood)?;
        let line = vec![in self.alloc; b' '; count]?;
        self.read_bytes(&line, answers)
    }
}
