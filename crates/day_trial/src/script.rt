//! A link in memory that gives what it is told to give, read by read, and keeps what is written.

ghost use Rattle.std.specs.Prelude.{None};

use crate::said::{Said, frames_of};
use link::{Got, Link, LinkFault};
use std::alloc::{AllocError, Global};
use std::collections::VecDeque;
use std::time::Duration;
use trial::TrialFault;

/// Where the pieces are over, or a piece is empty, a read gives nothing.
#[derive(Drop)]
pub struct Script {
    pieces: VecDeque<Vec<u8>>,
    // A line for each dial and for each frame that was written, with `|` for SOH.
    text: String,
    /// How many calls failed.
    pub faults: u64,
}

/// What one read gives.
fn piece_of(alloc: Global, says: &[Said]) -> Result<Vec<u8>, TrialFault> {
    let mut piece = Vec::new(alloc);
    for frame in frames_of(alloc, says)? {
        piece.extend_from_slice(frame.as_slice())?;
    }
    Ok(piece)
}

impl Script {
    /// A link on which B says this, the messages of each list in one read.
    pub fn new(alloc: Global, reads: &[&[Said]]) -> Result<Script, TrialFault> {
        let mut pieces = VecDeque::new(alloc);
        for says in reads {
            pieces.push_back(piece_of(alloc, says)?)?;
        }
        Ok(Script {
            pieces,
            text: String::new(alloc),
            faults: 0,
        })
    }

    /// What went over it: a line for each dial and for each frame that was written.
    pub fn text(&self) -> &str {
        self.text.as_str()
    }
}

/// Adds the line of a frame that was written.
fn push_frame(text: &mut String, frame: &[u8]) -> Result<(), AllocError> {
    text.push_str("> ")?;
    for byte in frame {
        let shown = if *byte == 1 { '|' } else { char::from(*byte) };
        text.push(shown)?;
    }
    text.push('\n')
}

impl Link for Script {
    ghost wire = { λ link. None };

    ghost fault_count = { λ link. link.faults };

    fn dial(&mut self) -> Result<(), LinkFault> {
        match self.text.push_str("dial\n") {
            Ok(()) => Ok(()),
            Err(_) => Err(LinkFault::counted(&mut self.faults)),
        }
    }

    fn read(&mut self, buf: &mut [u8]) -> Result<Got, LinkFault> {
        let Some(piece) = self.pieces.pop_front() else {
            return Ok(Got::Nothing);
        };
        let count = piece.len();
        if count == 0 {
            return Ok(Got::Nothing);
        }
        if count > buf.len() {
            return Err(LinkFault::counted(&mut self.faults));
        }
        buf[..count].copy_from_slice(piece.as_slice());
        Ok(Got::Bytes(count))
    }

    fn heard(&mut self, _left: usize) {}

    fn came_up(&mut self) {}

    fn write(&mut self, bytes: &[u8]) -> Result<usize, LinkFault> {
        match push_frame(&mut self.text, bytes) {
            Ok(()) => Ok(bytes.len()),
            Err(_) => Err(LinkFault::counted(&mut self.faults)),
        }
    }

    fn rest(&mut self, _most: Duration) {}

    fn shut(&mut self) -> Result<(), LinkFault> {
        Ok(())
    }

    fn faults(&self) -> u64 {
        self.faults
    }
}
