//! A link whose messages are logged.

use crate::recorder::Recorder;
use clock::Clock;
use link::{Got, Link, LinkFault};
use std::sync::Wait;
use std::time::{self, Duration};

/// A link that hands each call to another, and notes what went over it: behind each call, what that link took or gave.
/// It changes nothing of what that link does, and no fault of the log reaches a session.
#[derive(Drop)]
pub struct LoggedLink<'a, R: Wait + time::Clock, K: Link, C: Clock + Drop> {
    link: K,
    recorder: Recorder<'a, R, C>,
}

impl<'a, R: Wait + time::Clock, K: Link, C: Clock + Drop> LoggedLink<'a, R, K, C> {
    ghost use Rattle.std.specs.Prelude.{◌≡◌};

    /// The link, with what notes its messages.
    pub fn new(link: K, recorder: Recorder<'a, R, C>) -> LoggedLink<'a, R, K, C>
        ensures { result.link ≡ link }
    {
        LoggedLink { link, recorder }
    }
}

impl<'a, R: Wait + time::Clock, K: Link, C: Clock + Drop> Link for LoggedLink<'a, R, K, C> {
    ghost wire = { λ logged. K.wire logged.link };

    ghost fault_count = { λ logged. K.fault_count logged.link };

    fn dial(&mut self) -> Result<(), LinkFault> {
        let dialled = self.link.dial();
        match dialled {
            Ok(()) => self.recorder.dialled(),
            Err(_) => self.recorder.refused(),
        }
        dialled
    }

    fn read(&mut self, buf: &mut [u8]) -> Result<Got, LinkFault> {
        self.recorder.came_back();
        let got = self.link.read(buf)?;
        if let Got::Bytes(count) = got {
            self.recorder.received(&buf[..count]);
        }
        Ok(got)
    }

    fn heard(&mut self, left: usize) {
        self.link.heard(left);
        self.recorder.heard(left);
    }

    fn came_up(&mut self) {
        self.link.came_up();
    }

    fn write(&mut self, bytes: &[u8]) -> Result<usize, LinkFault> {
        let count = self.link.write(bytes)?;
        self.recorder.sent(bytes, count);
        Ok(count)
    }

    fn rest(&mut self, most: Duration) {
        self.recorder.came_back();
        self.link.rest(most)
    }

    fn shut(&mut self) -> Result<(), LinkFault> {
        self.recorder.ended();
        self.link.shut()
    }

    fn faults(&self) -> u64 {
        self.link.faults()
    }
}
