//! The sweep that callers release.

ghost use Rattle.std.specs.Prelude.{◌≡◌, IfSome};
ghost use Rattle.live_load.specs.Sweeps.{one_order, orders_to};

use leg::{Legs, Routed, Side, Sweep, Symbol, Terms, VenueId};
use std::alloc::Global;

/// The shares of each order.
pub const SHARES: u64 = 10;

/// The limit of each order, in ten-thousandths of a dollar.
const PRICE: u64 = 100_000;

/// Buy 10 IBM at 10 dollars at each of so many venues. None where memory is refused, or a venue can't have its number.
pub fn one_sweep(alloc: Global, venues: u8) -> Option<Sweep>
    ensures { IfSome result (λ sweep. sweep.legs ≡ orders_to venues) }
{
    let mut legs = Vec::new(alloc);
    for number in 0..venues {
        legs.push(one_order(number)?).ok()?;
    }
    Some(Sweep {
        legs: Legs::new(legs),
    })
}

/// Buy 10 IBM at 10 dollars at a venue, if there is one of this number.
fn one_order(number: u8) -> Option<Routed>
    ensures { IfSome result (λ routed. routed ≡ one_order number) }
{
    let symbol = Symbol::new(b"IBM", b"").unwrap();
    Some(Routed {
        venue: VenueId::new(number).ok()?,
        terms: Terms::new(symbol, Side::Buy, SHARES, PRICE).unwrap(),
    })
}
