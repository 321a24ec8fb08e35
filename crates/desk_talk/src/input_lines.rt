//! The lines of an input.

use desk_floor::TalkFault;
use readiness::{Readiness, Wakeup};
use std::alloc::Global;
use std::io::{self, BufRead, BufReader, ErrorKind, Read};
use std::net::Net;
use std::os::fd::RawFd;
use std::sync::Arc;
use std::time::Duration;
use sweep_text::MAX_LINE;

/// How many bytes of a line are kept: the most of one, a CR, and one more, by which a line is known to be too long.
const MOST_KEPT: usize = MAX_LINE + 2;

/// An input, and the descriptor by which the system tells whether it may be read.
#[derive(Drop)]
pub struct DeskInput<I: Read + Drop> {
    pub input: I,
    pub fd: RawFd,
}

/// The lines of an input, each as far as it is looked at, and how many were read.
#[derive(Drop)]
pub struct InputLines<I: Read + Drop> {
    input: BufReader<I>,
    readiness: Readiness,
    line: Vec<u8>,
    // Whether the line is read in part.
    is_part: bool,
    // Whether the last line needs its end too.
    needs_ends: bool,
    number: u64,
}

/// What came of waiting for a line.
#[derive(Clone, Copy, Debug, PartialEq, Eq)]
pub enum Next {
    /// A line.
    Line,
    /// A part of one.
    Part,
    /// Nothing.
    Nothing,
    /// The input has ended.
    End,
}

/// How far a line was read.
#[derive(Clone, Copy)]
enum Reach {
    /// To its end, or to that of the input behind some of it, if that is a line.
    Line,
    /// In part.
    Part,
    /// The input has ended, and there is no line.
    End,
}

impl<I: Read + Drop> InputLines<I> {
    /// The lines of an input of which none was read. The last one needs no end.
    pub fn new(net: &impl Net, alloc: Global, input: DeskInput<I>) -> io::Result<InputLines<I>> {
        InputLines::with_ends(net, alloc, input, false)
    }

    /// Those of a client that may be gone in the midst of one: a line without its end is none.
    pub fn of_client(
        net: &impl Net,
        alloc: Global,
        input: DeskInput<I>,
    ) -> io::Result<InputLines<I>> {
        InputLines::with_ends(net, alloc, input, true)
    }

    fn with_ends(
        net: &impl Net,
        alloc: Global,
        input: DeskInput<I>,
        needs_ends: bool,
    ) -> io::Result<InputLines<I>> {
        let DeskInput { input, fd } = input;
        Ok(InputLines {
            readiness: Readiness::new(net, alloc, fd)?,
            input: BufReader::new(alloc, input)?,
            line: Vec::new(alloc),
            is_part: false,
            needs_ends,
            number: 0,
        })
    }

    /// What ends a wait for a line, for another thread.
    pub fn wakeup(&self) -> io::Result<Arc<Wakeup, Global>> {
        self.readiness.wakeup()
    }

    /// How many lines were read: the number of the last one.
    pub fn number(&self) -> u64 {
        self.number
    }

    /// The line that was read last, without its end.
    pub fn line(&self) -> &[u8] {
        match self.line.as_slice() {
            [line @ .., b'\r'] => line,
            line => line,
        }
    }

    /// Whether bytes were read that belong to further lines.
    pub fn has_more(&self) -> bool {
        !self.input.buffer().is_empty()
    }

    /// Reads on in the next line; where nothing is there it waits, so long at most, or until the wait is ended.
    pub fn next(&mut self, most: Duration) -> Result<Next, TalkFault> {
        if !self.is_part {
            self.line.clear();
        }
        if !self.has_more() && !self.readiness.wait(most) {
            return Ok(Next::Nothing);
        }
        match self.read_on()? {
            Reach::Part => {
                self.is_part = true;
                Ok(Next::Part)
            }
            Reach::Line => {
                self.is_part = false;
                self.number = self.number.saturating_add(1);
                Ok(Next::Line)
            }
            Reach::End => Ok(Next::End),
        }
    }

    /// Reads what is there of the line.
    fn read_on(&mut self) -> Result<Reach, TalkFault> {
        let piece = match self.input.fill_buf() {
            Ok(piece) => piece,
            Err(error) if error.kind() == ErrorKind::Interrupted => return Ok(Reach::Part),
            Err(error) => return Err(TalkFault::of_read(&error)),
        };
        if piece.is_empty() {
            return Ok(if self.line.is_empty() || self.needs_ends {
                Reach::End
            } else {
                Reach::Line
            });
        }
        match piece.iter().position(|byte| *byte == b'\n') {
            Some(at) => {
                keep(&mut self.line, &piece[..at])?;
                self.input.consume(at + 1);
                Ok(Reach::Line)
            }
            None => {
                let count = piece.len();
                keep(&mut self.line, piece)?;
                self.input.consume(count);
                Ok(Reach::Part)
            }
        }
    }
}

/// Appends bytes to a line, as many as are kept of it.
fn keep(line: &mut Vec<u8>, bytes: &[u8]) -> Result<(), TalkFault> {
    let room = MOST_KEPT.saturating_sub(line.len());
    let count = bytes.len().min(room);
    line.extend_from_slice(&bytes[..count])?;
    Ok(())
}
