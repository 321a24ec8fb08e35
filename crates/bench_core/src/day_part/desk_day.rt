//! A day at desk and book.

use super::worked::{VENUES, worked_sweep, worked_trade};
use dialect::Note;
use leg::{Sweep, VenueId};
use share_ledger::{Applied, Book};
use std::alloc::Global;
use sweep_release::{Desk, place};
use trial::TrialFault;

/// A day: its desk and its book, the number of its last sweep, and how many trades were made up.
#[derive(Drop)]
pub struct DeskDay {
    alloc: Global,
    desk: Desk,
    book: Book,
    last_sweep: u64,
    trades: u64,
}

impl DeskDay {
    /// A day that begins, with all gates up.
    pub fn new(alloc: Global) -> Result<DeskDay, TrialFault> {
        let mut desk = Desk::new(alloc, VENUES)?;
        for number in 0..VENUES {
            let venue = VenueId::new(number)?;
            if usize::from(venue.number()) < desk.venues() {
                desk.gate_up(venue)?;
            }
        }
        Ok(DeskDay {
            alloc,
            desk,
            book: Book::new(alloc, VENUES)?,
            last_sweep: 0,
            trades: 0,
        })
    }

    /// So many sweeps are placed and taken, and each has a trade.
    pub fn go_on(&mut self, sweeps: u64) -> Result<(), TrialFault> {
        for _ in 0..sweeps {
            let sweep = worked_sweep(self.alloc)?;
            self.place(sweep)?;
            self.take_legs()?;
            let trade = self.next_trade()?;
            self.apply(&trade)?;
        }
        Ok(())
    }

    /// Places a sweep.
    pub fn place(&mut self, sweep: Sweep) -> Result<(), TrialFault> {
        let receipt = place(&mut self.desk, &mut self.book, sweep)?;
        self.last_sweep = receipt.number;
        Ok(())
    }

    /// Takes the next leg of each venue.
    fn take_legs(&mut self) -> Result<(), TrialFault> {
        for number in 0..VENUES {
            let venue = VenueId::new(number)?;
            if usize::from(venue.number()) < self.desk.venues() {
                self.desk.take(venue).ok_or(TrialFault::Refused)?;
            }
        }
        Ok(())
    }

    /// A trade that wasn't made up before, on the last sweep.
    pub fn next_trade(&mut self) -> Result<Note, TrialFault> {
        self.trades = self.trades.saturating_add(1);
        worked_trade(self.last_sweep, self.trades)
    }

    /// Books a note of the first venue, which moves shares.
    pub fn apply(&mut self, note: &Note) -> Result<(), TrialFault> {
        match self.book.apply(VenueId::new(0)?, note)? {
            Applied::Moved => Ok(()),
            _ => Err(TrialFault::Refused),
        }
    }

    /// The shares released in all.
    pub fn placed_shares(&self) -> u64 {
        self.desk.placed_shares()
    }

    /// The shares that were traded at the first venue.
    pub fn traded_shares(&self) -> Result<u64, TrialFault> {
        Ok(self.book.venue_resolved(VenueId::new(0)?))
    }
}
