//! The commands on frames.

use crate::lookup;
use crate::stream::Stream;
use crate::writer::Writer;
use case_text::{Answers, PlayFault, Player};
use std::alloc::Global;

/// A stream that is read, and a buffer that is written to.
#[derive(Drop)]
pub struct FramesPlayer {
    alloc: Global,
    stream: Stream,
    writer: Writer,
}

impl FramesPlayer {
    /// An empty stream and an empty buffer.
    pub fn new(alloc: Global) -> FramesPlayer {
        FramesPlayer {
            alloc,
            stream: Stream::new(alloc),
            writer: Writer::new(alloc),
        }
    }
}

impl Player for FramesPlayer {
    fn begin(&mut self) -> Result<(), PlayFault> {
        self.stream = Stream::new(self.alloc);
        self.writer = Writer::new(self.alloc);
        Ok(())
    }

    fn command(&mut self, line: &str, answers: &mut Answers) -> Result<(), PlayFault> {
        let (word, rest) = line.split_once(' ').unwrap_or((line, ""));
        match word {
            "feed"
            | "feed_each_byte"
            | "feed_in_two"
            | "rounds"
            | "keep"
            | "take"
            | "counts"
            | "kept_below" => self.stream.command(word, rest, answers),
            "buffer"
            | "room"
            | "show"
            | "write"
            | "write_parts"
            | "write_straight"
            | "write_listed" => self.writer.command(word, rest, answers),
            _ => lookup::command(self.alloc, word, rest, answers),
        }
    }
}
