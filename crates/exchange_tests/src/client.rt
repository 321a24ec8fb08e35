//! A session that speaks over a link, and counts what it is told.

use crate::support::{end, moment};
use dialect::{Note, Plain, Report, ReportKind};
use fix_tags::{Stamp, read_envelope};
use fix_text::FrameReader;
use leg::Leg;
use link::{Got, Link, write_whole};
use session_core::{Phase, Session, Step};
use std::alloc::Global;
use std::test::Fail;
use std::time::Duration;

/// What a session was told of its leg.
#[derive(Clone, Copy, Debug, PartialEq, Eq)]
pub(crate) struct Told {
    /// How many times that it was accepted, and that its rest was cancelled.
    pub accepted: u64,
    pub cancelled: u64,
    /// How many shares were traded.
    pub filled: u64,
    /// How many legs turned out to be lost on their way.
    pub withdrawn: usize,
}

/// The end A of a session, over a link to B. It dials again where its connection ends.
#[derive(Drop)]
pub(crate) struct Client<K: Link> {
    alloc: Global,
    stamp: Stamp,
    pub session: Session,
    pub link: K,
    reader: FrameReader,
    pub told: Told,
}

impl<K: Link> Client<K> {
    pub(crate) fn new(alloc: Global, link: K) -> Result<Client<K>, Fail> {
        let told = Told {
            accepted: 0,
            cancelled: 0,
            filled: 0,
            withdrawn: 0,
        };
        Ok(Client {
            alloc,
            stamp: moment()?,
            session: Session::new(alloc, end(b"A", b"B")?),
            link,
            reader: FrameReader::new(alloc),
            told,
        })
    }

    /// Takes so many turns at most, until the session is up.
    pub(crate) fn log_on(&mut self, most: u64) -> Result<(), Fail> {
        for _turn in 0..most {
            if self.session.phase() == Phase::Up {
                break;
            }
            self.turn()?;
        }
        Ok(())
    }

    /// Takes so many turns at most, until the session was told that the rest of its leg is cancelled.
    pub(crate) fn finish(&mut self, most: u64) -> Result<(), Fail> {
        for _turn in 0..most {
            if self.told.cancelled > 0 {
                break;
            }
            self.turn()?;
        }
        Ok(())
    }

    /// Takes so many turns.
    pub(crate) fn turns(&mut self, count: u64) -> Result<(), Fail> {
        for _turn in 0..count {
            self.turn()?;
        }
        Ok(())
    }

    /// Sends a leg, if the session is up.
    pub(crate) fn send(&mut self, leg: &Leg) -> Result<(), Fail> {
        if self.session.phase() == Phase::Up {
            let order = self.session.send_leg(&Plain, 1, leg, &self.stamp)?;
            self.write(order.as_slice());
        }
        Ok(())
    }

    /// Shows a sign of life, if there is a connection.
    pub(crate) fn beat(&mut self) -> Result<(), Fail> {
        if self.session.phase().is_connected() {
            let step = self.session.quiet(&Plain, &self.stamp)?;
            self.carry_out(step);
        }
        Ok(())
    }

    /// Dials, where there is no connection, and else reads once.
    fn turn(&mut self) -> Result<(), Fail> {
        if self.session.phase().is_connected() {
            self.hear()
        } else {
            self.dial()
        }
    }

    fn dial(&mut self) -> Result<(), Fail> {
        if self.link.dial().is_ok() {
            self.reader = FrameReader::new(self.alloc);
            let logon = self.session.connect(&Plain, &self.stamp)?;
            self.write(logon.as_slice());
        }
        Ok(())
    }

    fn hear(&mut self) -> Result<(), Fail> {
        let mut buf = [0; 256];
        match self.link.read(&mut buf) {
            Ok(Got::Bytes(count)) => self.reader.feed(&buf[..count])?,
            Ok(Got::Nothing) => self.link.rest(Duration::from_millis(20)),
            Ok(Got::End) | Err(_) => self.hang_up(),
        }
        for _frame in 0..16 {
            match self.next_step()? {
                Some(step) => self.carry_out(step),
                None => break,
            }
        }
        Ok(())
    }

    fn next_step(&mut self) -> Result<Option<Step>, Fail> {
        let Some(frame) = self.reader.next()? else {
            return Ok(None);
        };
        let envelope = read_envelope(&frame)?;
        let step = self.session.receive(&Plain, &envelope, &self.stamp)?;
        Ok(Some(step))
    }

    fn carry_out(&mut self, step: Step) {
        let Step {
            out,
            note,
            withdrawn,
            ended,
        } = step;
        if let Some(note) = note {
            self.count(&note);
            self.session.confirm();
        }
        let withdrawn = withdrawn.into_vec();
        self.told.withdrawn = self.told.withdrawn.saturating_add(withdrawn.len());
        for frame in out.into_vec() {
            self.write(frame.as_slice());
        }
        if ended.is_some() {
            self.hang_up();
        }
    }

    fn count(&mut self, note: &Note) {
        let told = &mut self.told;
        if let Note::Report(Report { kind, .. }) = note {
            match kind {
                ReportKind::New => told.accepted = told.accepted.saturating_add(1),
                ReportKind::Trade(fill) => told.filled = told.filled.saturating_add(fill.shares()),
                ReportKind::Canceled => told.cancelled = told.cancelled.saturating_add(1),
                _ => {}
            }
        }
    }

    fn write(&mut self, frame: &[u8]) {
        if write_whole(&mut self.link, frame).is_err() {
            self.hang_up();
        }
    }

    fn hang_up(&mut self) {
        self.session.broken();
        let _ = self.link.shut();
    }
}
