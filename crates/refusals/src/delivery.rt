//! Frames that come to an end, read from their bytes.

ghost use Rattle.std.specs.Prelude.{IsTrue};
ghost use Rattle.session_core.specs.Sound as session;
ghost use Rattle.exchange_core.specs.Sound as exchange;

use crate::day::Day;
use crate::frame::Frame;
use dialect::Plain;
use fix_text::FrameReader;
use trial::{TrialFault, envelope_in};

/// The frame of a count, from 1, among those written one way.
fn frame_of(frames: &[Frame], count: usize) -> Result<&Frame, TrialFault> {
    let frame = frames.get(count.wrapping_sub(1));
    frame.ok_or(TrialFault::Missing)
}

impl Day {
    /// The frame of a count comes to the exchange.
    pub fn to_exchange(&mut self, count: usize) -> Result<(), TrialFault> {
        let alloc = self.alloc;
        let frame = frame_of(&self.to_exchange, count)?;
        let connection = frame.connection;
        let mut reader = FrameReader::new(alloc);
        let envelope = envelope_in(&mut reader, &frame.bytes)?;
        let written = self
            .exchange
            .take(alloc, &Plain, connection, &envelope, &self.stamp)?;
        for bytes in written {
            self.from_exchange.push(Frame { connection, bytes })?;
        }
        Ok(())
    }

    /// The frame of a count comes to the session. The note that it gives is kept, to be booked.
    pub fn to_session(&mut self, count: usize) -> Result<(), TrialFault> {
        let mut reader = FrameReader::new(self.alloc);
        let frame = frame_of(&self.from_exchange, count)?;
        let envelope = envelope_in(&mut reader, &frame.bytes)?;
        let mut step = self.session.receive(&Plain, &envelope, &self.stamp)?;
        self.note = step.note.take();
        self.keep_step(step)
    }

    /// The frame of a count comes to the session, the book doesn't take the note, and the connection breaks.
    pub fn unconfirmed(&mut self, count: usize) -> Result<(), TrialFault> {
        self.to_session(count)?;
        self.note = None;
        self.break_off()
    }
}
