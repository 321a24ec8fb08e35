//! The calls of desk and book.

use crate::day::Day;
use sweep_release::place;
use trial::{Order, TrialFault, sweep_of};

impl Day {
    /// The gate goes up.
    pub fn gate_up(&mut self) -> Result<(), TrialFault> {
        let venue = self.venue()?;
        Ok(self.desk.gate_up(venue)?)
    }

    /// The gate goes down.
    pub fn gate_down(&mut self) -> Result<(), TrialFault> {
        let venue = self.venue()?;
        self.desk.gate_down(venue);
        Ok(())
    }

    /// A sweep is placed at desk and book.
    pub fn place(&mut self, orders: &[Order]) -> Result<(), TrialFault> {
        let sweep = sweep_of(self.alloc, orders)?;
        place(&mut self.desk, &mut self.book, sweep)?;
        Ok(())
    }

    /// The next leg is taken from the desk, to be sent.
    pub fn take(&mut self) -> Result<(), TrialFault> {
        let venue = self.venue()?;
        let placed = self.desk.take(venue).ok_or(TrialFault::Missing)?;
        self.taken = Some(placed);
        Ok(())
    }

    /// The next leg is dropped from the desk and withdrawn in the book.
    pub fn drop_next(&mut self) -> Result<(), TrialFault> {
        let venue = self.venue()?;
        let placed = self.desk.drop_next(venue).ok_or(TrialFault::Missing)?;
        Ok(self.book.withdraw(placed.leg.id)?)
    }

    /// The book takes the note that came, and the session counts it.
    pub fn book(&mut self) -> Result<(), TrialFault> {
        let venue = self.venue()?;
        let note = self.note.as_ref().ok_or(TrialFault::Missing)?;
        self.book.apply(venue, note)?;
        self.note = None;
        self.session.confirm();
        Ok(())
    }
}
