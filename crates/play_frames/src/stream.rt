//! A stream of bytes that is read.

use crate::given::Given;
use case_text::{Answers, PlayFault, bytes_of, number};
use fix_text::{FrameReader, ReaderFault};
use std::alloc::Global;

/// The reader of a stream.
#[derive(Drop)]
pub struct Stream {
    alloc: Global,
    reader: FrameReader,
}

/// The only refusal of a reader is out of memory.
fn read_fault(fault: ReaderFault) -> PlayFault {
    match fault {
        ReaderFault::OutOfMemory => PlayFault::OutOfMemory,
    }
}

impl Stream {
    /// A stream of which nothing came yet.
    pub fn new(alloc: Global) -> Stream {
        Stream {
            alloc,
            reader: FrameReader::new(alloc),
        }
    }

    fn feed(&mut self, bytes: &[u8]) -> Result<(), PlayFault> {
        self.reader.feed(bytes).map_err(read_fault)
    }

    /// Takes each frame that is there.
    fn take(&mut self, given: &mut Given, answers: &mut Answers) -> Result<(), PlayFault> {
        for _ in 0..u64::MAX {
            match self.reader.next().map_err(read_fault)? {
                Some(frame) => given.add(&frame, answers)?,
                None => break,
            }
        }
        Ok(())
    }

    /// Feeds pieces one by one, and takes what is there behind each.
    fn feed_pieces(
        &mut self,
        bytes: &[u8],
        length: usize,
        answers: &mut Answers,
    ) -> Result<(), PlayFault> {
        let mut given = Given::new(self.alloc, "");
        for piece in bytes.chunks(length.max(1)) {
            self.feed(piece)?;
            self.take(&mut given, answers)?;
        }
        given.end(answers)
    }

    /// Feeds the same bytes as often as they can be cut in two, and takes what is there behind each piece.
    fn feed_in_two(&mut self, bytes: &[u8], answers: &mut Answers) -> Result<(), PlayFault> {
        let mut first = Given::new(self.alloc, "first piece: ");
        let mut second = Given::new(self.alloc, "second piece: ");
        for end in 0..bytes.len() {
            let (front, back) = bytes.split_at(end);
            self.feed(front)?;
            self.take(&mut first, answers)?;
            self.feed(back)?;
            self.take(&mut second, answers)?;
        }
        first.end(answers)?;
        second.end(answers)
    }

    /// Feeds a text so many times, and takes nothing.
    fn keep(&mut self, text: &str) -> Result<(), PlayFault> {
        let (count, text) = text.split_once(' ').ok_or(PlayFault::NotUnderstood)?;
        let bytes = bytes_of(self.alloc, text)?;
        for _ in 0..number(count)? {
            self.feed(&bytes)?;
        }
        Ok(())
    }

    /// Feeds a text so many times, takes what is there each time, and answers whether fewer bytes than a limit were
    /// kept each time.
    fn rounds(&mut self, text: &str, answers: &mut Answers) -> Result<(), PlayFault> {
        let (count, text) = text.split_once(' ').ok_or(PlayFault::NotUnderstood)?;
        let (limit, text) = text.split_once(' ').ok_or(PlayFault::NotUnderstood)?;
        let (count, limit) = (number(count)?, number(limit)?);
        let bytes = bytes_of(self.alloc, text)?;
        let mut given = Given::new(self.alloc, "");
        let mut most = 0u64;
        for _ in 0..count {
            self.feed(&bytes)?;
            self.take(&mut given, answers)?;
            most = most.max(self.reader.kept() as u64);
        }
        given.end(answers)?;
        answers.say(if most < limit { "below" } else { "not below" })
    }

    fn counts(&self, answers: &mut Answers) -> Result<(), PlayFault> {
        let skipped = self.reader.skipped();
        let garbled = self.reader.garbled();
        answers.say(&format!(in self.alloc; "skipped {skipped} garbled {garbled}")?)
    }

    fn kept_below(&self, limit: u64, answers: &mut Answers) -> Result<(), PlayFault> {
        let kept = self.reader.kept() as u64;
        answers.say(if kept < limit { "yes" } else { "no" })
    }

    pub fn command(
        &mut self,
        word: &str,
        rest: &str,
        answers: &mut Answers,
    ) -> Result<(), PlayFault> {
        match word {
            "feed" => {
                let bytes = bytes_of(self.alloc, rest)?;
                self.feed_pieces(&bytes, bytes.len(), answers)
            }
            "feed_each_byte" => {
                let bytes = bytes_of(self.alloc, rest)?;
                self.feed_pieces(&bytes, 1, answers)
            }
            "feed_in_two" => {
                let bytes = bytes_of(self.alloc, rest)?;
                self.feed_in_two(&bytes, answers)
            }
            "keep" => self.keep(rest),
            "rounds" => self.rounds(rest, answers),
            "take" => {
                let mut given = Given::new(self.alloc, "");
                self.take(&mut given, answers)?;
                given.end(answers)
            }
            "counts" => self.counts(answers),
            "kept_below" => self.kept_below(number(rest)?, answers),
            _ => Err(PlayFault::NotUnderstood),
        }
    }
}
