//! The orders of sweeps.

use crate::TrialFault;
use leg::{Legs, Routed, Side, Sweep, Symbol, Terms, VenueId};
use std::alloc::Global;

/// An order of a sweep, to buy.
#[derive(Clone, Copy, Debug)]
pub struct Order {
    pub venue: u8,
    pub root: &'static [u8],
    pub suffix: &'static [u8],
    pub shares: u64,
    /// In ten-thousandths of a dollar.
    pub price: u64,
}

/// Ten shares of IBM at ten dollars, at the first venue.
pub const TEN: Order = Order {
    venue: 0,
    root: b"IBM",
    suffix: b"",
    shares: 10,
    price: 100_000,
};

impl Order {
    /// The order as a sweep has it.
    fn routed(&self) -> Result<Routed, TrialFault> {
        let symbol = Symbol::new(self.root, self.suffix)?;
        Ok(Routed {
            venue: VenueId::new(self.venue)?,
            terms: Terms::new(symbol, Side::Buy, self.shares, self.price)?,
        })
    }
}

/// A sweep of these orders. It takes memory once.
pub fn sweep_of(alloc: Global, orders: &[Order]) -> Result<Sweep, TrialFault> {
    let mut legs = Vec::with_capacity(alloc, orders.len())?;
    for order in orders {
        legs.push(order.routed()?)?;
    }
    Ok(Sweep {
        legs: Legs::new(legs),
    })
}

/// A sweep that buys so many shares of IBM at ten dollars at each of so many venues.
pub fn sweep_each(alloc: Global, venues: u8, shares: u64) -> Result<Sweep, TrialFault> {
    let mut legs = Vec::with_capacity(alloc, usize::from(venues))?;
    for venue in 0..venues {
        let order = Order {
            venue,
            shares,
            ..TEN
        };
        legs.push(order.routed()?)?;
    }
    Ok(Sweep {
        legs: Legs::new(legs),
    })
}
