//! The calls of the session.

use crate::day::Day;
use crate::frame::Frame;
use dialect::Plain;
use session_core::Step;
use trial::TrialFault;

impl Day {
    /// A frame that the session wrote.
    fn keep_to(&mut self, bytes: Vec<u8>) -> Result<(), TrialFault> {
        let connection = self.session.connection();
        self.to_exchange.push(Frame { connection, bytes })?;
        Ok(())
    }

    /// What a call of the session answers: its frames are kept, and the book withdraws the legs.
    pub fn keep_step(&mut self, step: Step) -> Result<(), TrialFault> {
        for bytes in step.out.into_vec() {
            self.keep_to(bytes)?;
        }
        for id in step.withdrawn.into_vec() {
            self.book.withdraw(id)?;
        }
        Ok(())
    }

    /// A connection begins.
    pub fn connect(&mut self) -> Result<(), TrialFault> {
        let logon = self.session.connect(&Plain, &self.stamp)?;
        self.keep_to(logon)
    }

    /// The leg that left the desk is sent.
    pub fn send(&mut self) -> Result<(), TrialFault> {
        let placed = self.taken.as_ref().ok_or(TrialFault::Missing)?;
        let order = self
            .session
            .send_leg(&Plain, placed.ordinal, &placed.leg, &self.stamp)?;
        self.taken = None;
        self.keep_to(order)
    }

    /// Nothing was written for a while.
    pub fn quiet(&mut self) -> Result<(), TrialFault> {
        let step = self.session.quiet(&Plain, &self.stamp)?;
        self.keep_step(step)
    }

    /// Nothing was received for a while.
    pub fn silent(&mut self) -> Result<(), TrialFault> {
        let step = self.session.silent(&Plain, &self.stamp)?;
        self.keep_step(step)
    }

    /// The session is closed, and the gate shut.
    pub fn close(&mut self) -> Result<(), TrialFault> {
        let step = self.session.close(&Plain, &self.stamp)?;
        self.keep_step(step)?;
        let venue = self.venue()?;
        self.desk.shut(venue);
        Ok(())
    }

    /// The connection breaks at the session's end.
    pub fn break_off(&mut self) -> Result<(), TrialFault> {
        self.session.broken();
        Ok(())
    }
}
