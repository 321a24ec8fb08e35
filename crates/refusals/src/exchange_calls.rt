//! The exchange's own acts.

use crate::day::Day;
use crate::frame::Frame;
use dialect::{LastPx, Plain};
use trial::TrialFault;

impl Day {
    /// The frame that an act wrote, if it wrote one.
    fn keep_from(&mut self, written: Option<Vec<u8>>) -> Result<(), TrialFault> {
        let connection = self.session.connection();
        match written {
            Some(bytes) => self.from_exchange.push(Frame { connection, bytes })?,
            None => {}
        }
        Ok(())
    }

    /// Shares of an order are filled.
    pub fn trade(&mut self, order: usize, shares: u64) -> Result<(), TrialFault> {
        let px = LastPx::new(b"10.25").ok_or(TrialFault::Missing)?;
        let written = self
            .exchange
            .trade(self.alloc, &Plain, order, shares, px, &self.stamp)?;
        self.keep_from(written)
    }

    /// What is open of an order is cancelled.
    pub fn cancel_rest(&mut self, order: usize) -> Result<(), TrialFault> {
        let written = self
            .exchange
            .cancel_rest(self.alloc, &Plain, order, &self.stamp)?;
        self.keep_from(written)
    }

    /// An order is refused after it was accepted.
    pub fn reject(&mut self, order: usize) -> Result<(), TrialFault> {
        let written = self
            .exchange
            .reject(self.alloc, &Plain, order, &self.stamp)?;
        self.keep_from(written)
    }

    /// A trade of an order is taken back.
    pub fn bust(&mut self, order: usize, trade: usize) -> Result<(), TrialFault> {
        let written = self
            .exchange
            .bust(self.alloc, &Plain, order, trade, &self.stamp)?;
        self.keep_from(written)
    }

    /// A TestRequest of the exchange.
    pub fn test(&mut self) -> Result<(), TrialFault> {
        let written = self.exchange.test(self.alloc, &self.stamp)?;
        self.keep_from(written)
    }

    /// The connection breaks at the exchange's end.
    pub fn exchange_break(&mut self) -> Result<(), TrialFault> {
        self.exchange.drop_connection();
        Ok(())
    }
}
