//! A client: its connection, and how long it may be waited for.

use crate::outgoing::Outgoing;
use crate::page::Page;
use desk_http::{Connection, Day, Refused, Turn, refuse};
use desk_page::PAGE;
use std::alloc::Global;
use std::io;
use std::io::{ErrorKind, Read};
use std::net::{Shutdown, TcpStream};
use std::sync::Wait;
use std::time::Duration;

/// How many bytes are read at once.
const READ_BYTES: usize = 8 * 1024;

/// How often a client is read before others have their turn.
const MOST_READS: u64 = 8;

/// Requests are answered until so many bytes wait to be sent.
const MOST_WAITING: usize = 64 * 1024;

/// How many milliseconds a client that has sent a part of a request may send nothing, and a whole request may take.
const SILENCE_MILLIS: u64 = 500;

const REQUEST_MILLIS: u64 = 5_000;

/// How many milliseconds a connection may stay on which nothing is asked.
const REST_MILLIS: u64 = 30_000;

/// How many milliseconds a client may take none of the bytes that are to be sent.
pub(crate) const UNREAD_MILLIS: u64 = 5_000;

/// How many milliseconds a client may take to close a connection that was closed from here.
const FAREWELL_MILLIS: u64 = 1_000;

/// What becomes of a client.
#[derive(Clone, Copy)]
pub(crate) enum Fate {
    /// It is waited for.
    Stays,
    /// It goes on as soon as others had their turn.
    GoesOn,
    /// It follows the day, behind this execution where it names one.
    Follows(Option<u64>),
    Gone,
}

/// What a read gave.
#[derive(Clone, Copy)]
enum Got {
    Bytes,
    Nothing,
    End,
}

/// A client whose reads and writes don't wait.
#[derive(Drop)]
pub(crate) struct Client {
    pub stream: TcpStream,
    pub outgoing: Outgoing,
    connection: Connection,
    /// Until when nothing is sent or read, where a token was nobody's.
    held: Option<Duration>,
    /// Whether the connection is to be closed once all is sent.
    is_leaving: bool,
    /// Whether it was closed from here: what still comes is let go.
    is_closed: bool,
    /// When the request began of which a part has come.
    begun: Option<Duration>,
    /// When bytes came or went last.
    moved: Duration,
}

impl Client {
    /// A client that came now.
    pub fn new(alloc: Global, stream: TcpStream, now: Duration) -> Client {
        Client {
            stream,
            outgoing: Outgoing::new(alloc),
            connection: Connection::new(alloc),
            held: None,
            is_leaving: false,
            is_closed: false,
            begun: None,
            moved: now,
        }
    }

    /// Since when nothing is asked on its connection; none where something is.
    pub fn idle_since(&self) -> Option<Duration> {
        if self.is_leaving || self.begun.is_some() || !self.outgoing.is_empty() {
            return None;
        }
        Some(self.moved)
    }

    /// Whether what is to be sent is still held back.
    fn is_held(&mut self, now: Duration) -> bool {
        let Some(until) = self.held else {
            return false;
        };
        if now < until {
            return true;
        }
        self.held = None;
        self.moved = now;
        false
    }

    /// A token was nobody's: its answer is held back, or the client is let go without one.
    fn hold(&mut self, rt: &impl Wait, page: &Page, stays: bool, now: Duration) -> Fate {
        self.is_leaving = !stays;
        self.held = page.guessed(rt, now);
        match self.held {
            Some(_) => Fate::GoesOn,
            None => Fate::Gone,
        }
    }

    /// Sends what may be sent, answers what was asked, and reads on. A fault of the connection, or out of memory, ends
    /// it. It may wait for locks.
    pub fn go_on<D: Day>(
        &mut self,
        rt: &impl Wait,
        day: &mut D,
        page: &Page,
        now: Duration,
    ) -> io::Result<Fate> {
        if self.is_held(now) {
            return Ok(Fate::Stays);
        }
        for _ in 0..MOST_READS {
            if self.outgoing.send(&mut self.stream)? {
                self.moved = now;
            }
            if !self.outgoing.is_empty() {
                return Ok(Fate::Stays);
            }
            if self.is_leaving {
                return self.see_off(now);
            }
            match self.answer(day, page, now)? {
                Turn::Follows(after) => return Ok(Fate::Follows(after)),
                Turn::Ends => self.is_leaving = true,
                Turn::Guessed(stays) => return Ok(self.hold(rt, page, stays, now)),
                Turn::Answered => {}
                Turn::Waits if !self.outgoing.is_empty() => {}
                Turn::Waits => match self.read(now)? {
                    Got::Bytes => {}
                    Got::Nothing => return Ok(Fate::Stays),
                    Got::End => return Ok(Fate::Gone),
                },
            }
        }
        Ok(Fate::GoesOn)
    }

    /// Answers the requests that are whole, until much waits to be sent.
    fn answer<D: Day>(&mut self, day: &mut D, page: &Page, now: Duration) -> io::Result<Turn> {
        let Page { door, run, .. } = page;
        let mut turn = Turn::Answered;
        for _ in 0..u64::MAX {
            if turn != Turn::Answered || self.outgoing.len() >= MOST_WAITING {
                break;
            }
            let output = &mut self.outgoing.bytes;
            turn = self.connection.answer_next(day, door, PAGE, run, output)?;
            if turn == Turn::Answered {
                self.begun = None;
            }
        }
        if !self.connection.has_begun() {
            self.begun = None;
        } else if self.begun.is_none() {
            self.begun = Some(now);
        }
        Ok(turn)
    }

    /// Reads what has come.
    fn read(&mut self, now: Duration) -> io::Result<Got> {
        let mut buffer = [0; READ_BYTES];
        match self.stream.read(&mut buffer) {
            Ok(0) => Ok(Got::End),
            Ok(count) => {
                self.connection.take(&buffer[..count])?;
                self.moved = now;
                Ok(Got::Bytes)
            }
            Err(fault) if fault.kind() == ErrorKind::WouldBlock => Ok(Got::Nothing),
            Err(fault) if fault.kind() == ErrorKind::Interrupted => Ok(Got::Bytes),
            Err(fault) => Err(fault),
        }
    }

    /// Closes the connection from here, and waits for the client to close it: were it closed at once while bytes come,
    /// the client might lose the last answer.
    fn see_off(&mut self, now: Duration) -> io::Result<Fate> {
        if !self.is_closed {
            self.stream.shutdown(Shutdown::Write)?;
            self.is_closed = true;
            self.moved = now;
        }
        let mut buffer = [0; READ_BYTES];
        match self.stream.read(&mut buffer) {
            Ok(0) => Ok(Fate::Gone),
            Ok(_) => Ok(Fate::GoesOn),
            Err(fault) if fault.kind() == ErrorKind::WouldBlock => Ok(Fate::Stays),
            Err(fault) => Err(fault),
        }
    }

    /// Whether it was waited for too long; one that sent a part of a request is told so first.
    pub fn look(&mut self, alloc: Global, page: &Page, now: Duration) -> io::Result<Fate> {
        if self.held.is_some() {
            return Ok(Fate::GoesOn);
        }
        let silence = now.saturating_sub(self.moved);
        if !self.outgoing.is_empty() {
            return Ok(gone_after(silence, UNREAD_MILLIS));
        }
        if self.is_leaving {
            return Ok(gone_after(silence, FAREWELL_MILLIS));
        }
        let Some(begun) = self.begun else {
            return Ok(gone_after(silence, REST_MILLIS));
        };
        let taken = now.saturating_sub(begun);
        if silence < Duration::from_millis(SILENCE_MILLIS)
            && taken < Duration::from_millis(REQUEST_MILLIS)
        {
            return Ok(Fate::Stays);
        }
        let output = &mut self.outgoing.bytes;
        let (door, run) = (&page.door, &page.run);
        refuse(alloc, door, run, false, Refused::TooSlow, output)?;
        self.is_leaving = true;
        Ok(Fate::GoesOn)
    }
}

/// It is gone once that many milliseconds have passed.
fn gone_after(silence: Duration, millis: u64) -> Fate {
    if silence < Duration::from_millis(millis) {
        Fate::Stays
    } else {
        Fate::Gone
    }
}
