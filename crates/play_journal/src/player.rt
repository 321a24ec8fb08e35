//! The commands of a case file.

use crate::words::{tell_deed, tell_desk};
use case_text::{Answers, PlayFault, Player, bytes_of, number, shown};
use journal_folder::{FolderFault, Found, head_line};
use journal_record::{TextEnd, judge, lines_of};
use journal_tape::{Journal, JournalFault, JournalWriter, MemoryTape, text_of};
use std::alloc::Global;

/// How long a tape is, unless a case says another length.
const ROOM: usize = 512;

/// A tape with a journal, what is left of it, and what was found of the files before.
#[derive(Drop)]
pub struct JournalPlayer {
    alloc: Global,
    journal: Option<JournalWriter<MemoryTape>>,
    left: Vec<u8>,
    files: usize,
    found: Found,
}

/// A place in a file, or a length.
fn place(word: &str) -> Result<usize, PlayFault> {
    match usize::try_from(number(word)?) {
        Ok(place) => Ok(place),
        Err(_) => Err(PlayFault::NotUnderstood),
    }
}

/// What a call of a journal answered.
fn tell_done(done: Result<(), JournalFault>, answers: &mut Answers) -> Result<(), PlayFault> {
    match done {
        Ok(()) => answers.say("done"),
        Err(JournalFault::NotALine) => answers.say("no line"),
        Err(JournalFault::OutOfMemory) => answers.say("out of memory"),
        Err(JournalFault::NotWritten) => answers.say("not written"),
    }
}

/// The lines of a text, and what is behind them.
fn tell_text(alloc: Global, text: &[u8], answers: &mut Answers) -> Result<(), PlayFault> {
    let read = lines_of(alloc, text)?;
    for line in &read.lines {
        let line = shown(alloc, line.as_slice())?;
        let said = format!(in alloc; "line {line}")?;
        answers.say(&said)?;
    }
    let judged = judge(text);
    let (lines, bytes) = (judged.lines, judged.bytes);
    let end = match judged.end {
        TextEnd::Whole => "whole",
        TextEnd::Torn => "torn",
        TextEnd::Damaged => "damaged",
    };
    let said = format!(in alloc; "{end} lines {lines} bytes {bytes}")?;
    answers.say(&said)
}

impl JournalPlayer {
    /// No tape is there.
    pub fn new(alloc: Global) -> JournalPlayer {
        JournalPlayer {
            alloc,
            journal: None,
            left: Vec::new(alloc),
            files: 0,
            found: Found::new(alloc),
        }
    }

    /// A new tape of so many zeros.
    fn begin_tape(&mut self, room: usize) -> Result<(), PlayFault> {
        let tape = MemoryTape::zeros(self.alloc, room)?;
        self.journal = Some(JournalWriter::new(self.alloc, tape, room));
        Ok(())
    }

    /// Tells a line.
    fn tell(&mut self, line: &[u8], answers: &mut Answers) -> Result<(), PlayFault> {
        match &mut self.journal {
            Some(journal) => match journal.tell(line) {
                Ok(()) => Ok(()),
                Err(fault) => tell_done(Err(fault), answers),
            },
            None => Err(PlayFault::NotUnderstood),
        }
    }

    /// Keeps what was told.
    fn keep(&mut self, answers: &mut Answers) -> Result<(), PlayFault> {
        match &mut self.journal {
            Some(journal) => tell_done(journal.keep(), answers),
            None => Err(PlayFault::NotUnderstood),
        }
    }

    /// What a crash leaves: the bytes before a place, and zeros.
    fn crash(&mut self, from: usize) -> Result<(), PlayFault> {
        let Some(journal) = &self.journal else {
            return Err(PlayFault::NotUnderstood);
        };
        let mut left = Vec::new(self.alloc);
        for (at, byte) in journal.tape().bytes().iter().enumerate() {
            left.push(if at < from { *byte } else { 0 })?;
        }
        self.left = left;
        Ok(())
    }

    /// One byte of what is left is another one.
    fn damage(&mut self, at: usize, byte: &[u8]) -> Result<(), PlayFault> {
        match (self.left.get_mut(at), byte) {
            (Some(place), [byte]) => {
                *place = *byte;
                Ok(())
            }
            _ => Err(PlayFault::NotUnderstood),
        }
    }

    /// What is left is the next file of a folder.
    fn take_file(&mut self, answers: &mut Answers) -> Result<(), PlayFault> {
        self.files = self.files.saturating_add(1);
        match self
            .found
            .take_file(self.alloc, self.files, self.left.as_slice())
        {
            Ok(()) => {
                let (files, lines, torn) = (
                    self.found.files(),
                    self.found.count(),
                    self.found.torn(),
                );
                let said = format!(in self.alloc; "files {files} lines {lines} torn {torn}")?;
                answers.say(&said)
            }
            Err(FolderFault::OutOfMemory) => Err(PlayFault::OutOfMemory),
            Err(fault) => {
                let said = format!(in self.alloc; "{fault}")?;
                answers.say(&said)
            }
        }
    }

    /// The lines of the files so far that count.
    fn tell_found(&self, answers: &mut Answers) -> Result<(), PlayFault> {
        for line in self.found.lines() {
            let line = shown(self.alloc, line.as_slice())?;
            let said = format!(in self.alloc; "found {line}")?;
            answers.say(&said)?;
        }
        Ok(())
    }

    /// How many bytes behind the first NUL of the last file are none.
    fn tell_stray(&self, answers: &mut Answers) -> Result<(), PlayFault> {
        let stray = self.found.stray();
        let said = format!(in self.alloc; "stray {stray}")?;
        answers.say(&said)
    }

    /// The command of these two words.
    fn do_with(&mut self, name: &str, rest: &str, answers: &mut Answers) -> Result<(), PlayFault> {
        match name {
            "room" => self.begin_tape(place(rest)?),
            "tell" => {
                let line = bytes_of(self.alloc, rest)?;
                self.tell(line.as_slice(), answers)
            }
            "deed" => {
                let line = bytes_of(self.alloc, rest)?;
                tell_deed(self.alloc, line.as_slice(), answers)
            }
            "desk" => {
                let line = bytes_of(self.alloc, rest)?;
                tell_desk(self.alloc, line.as_slice(), answers)
            }
            "head" => match rest.split_once(' ') {
                Some((file, after)) => {
                    let head = head_line(self.alloc, place(file)?, place(after)?, "day D desk A")?;
                    self.tell(head.as_slice(), answers)
                }
                None => Err(PlayFault::NotUnderstood),
            },
            "crash" => self.crash(place(rest)?),
            "damage" => match rest.split_once(' ') {
                Some((at, byte)) => {
                    let byte = bytes_of(self.alloc, byte)?;
                    self.damage(place(at)?, byte.as_slice())
                }
                None => Err(PlayFault::NotUnderstood),
            },
            _ => Err(PlayFault::NotUnderstood),
        }
    }
}

impl Player for JournalPlayer {
    fn begin(&mut self) -> Result<(), PlayFault> {
        *self = JournalPlayer::new(self.alloc);
        self.begin_tape(ROOM)
    }

    fn command(&mut self, line: &str, answers: &mut Answers) -> Result<(), PlayFault> {
        match line {
            "keep" => self.keep(answers),
            "kill" => self.crash(usize::MAX),
            "read" => tell_text(self.alloc, text_of(self.left.as_slice()), answers),
            "file" => self.take_file(answers),
            "found" => self.tell_found(answers),
            "stray" => self.tell_stray(answers),
            _ => match line.split_once(' ') {
                Some((name, rest)) => self.do_with(name, rest, answers),
                None => Err(PlayFault::NotUnderstood),
            },
        }
    }
}
