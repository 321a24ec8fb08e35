//! Sweeps of orders.

use leg::{Legs, Routed, Side, Sweep, Symbol, Terms, VenueId};
use std::alloc::Global;
use std::test::Fail;

/// An order of so many shares for a venue.
fn order(number: u8, shares: u64) -> Result<Routed, Fail> {
    let symbol = Symbol::new(b"IBM", b"")?;
    let venue = VenueId::new(number)?;
    let terms = Terms::new(symbol, Side::Buy, shares, 100_000)?;
    Ok(Routed { venue, terms })
}

/// Orders of these shares, each for a venue.
pub(crate) fn sweep(alloc: Global, orders: &[(u8, u64)]) -> Result<Sweep, Fail> {
    let mut legs = Vec::new(alloc);
    for (number, shares) in orders {
        legs.push(order(*number, *shares)?)?;
    }
    Ok(Sweep {
        legs: Legs::new(legs),
    })
}

/// So many legs of ten shares, to the first venue.
pub(crate) fn legs_of_ten(alloc: Global, count: usize) -> Result<Sweep, Fail> {
    let mut legs = Vec::new(alloc);
    for _ in 0..count {
        legs.push(order(0, 10)?)?;
    }
    Ok(Sweep {
        legs: Legs::new(legs),
    })
}
