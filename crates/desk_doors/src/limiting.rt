//! The limits of a day.

ghost use Rattle.std.specs.Prelude.{◌≡◌, map, IfOk};
ghost use Rattle.desk_doors.specs.Limiting.{day_limits};

use desk_config::{DeskConfig, LimitsTable, Venue};
use leg::Symbol;
use order_limits::{LegLimits, OrderLimits};
use std::alloc::{AllocError, Global};

/// The same symbols once more.
fn copied(alloc: Global, symbols: &[Symbol]) -> Result<Vec<Symbol>, AllocError>
    ensures { IfOk result (λ copy. copy.items ≡ symbols.now) }
{
    let mut copy = Vec::new(alloc);
    for symbol in symbols {
        copy.push(symbol.clone()?)?;
    }
    Ok(copy)
}

/// What a leg for each venue may have, in their order.
fn legs_limits(alloc: Global, venues: &[Venue]) -> Result<Vec<LegLimits>, AllocError>
    ensures { IfOk result (λ limits. limits.items ≡ map (λ venue. venue.limits) venues.now) }
{
    let mut limits = Vec::new(alloc);
    for venue in venues {
        limits.push(venue.limits)?;
    }
    Ok(limits)
}

/// What the orders of a day may have, by its file. The only refusal is out of memory.
pub fn day_limits(alloc: Global, config: &DeskConfig) -> Result<OrderLimits, AllocError>
    ensures { IfOk result (λ limits. limits ≡ day_limits config.now) }
{
    let symbols = copied(alloc, config.symbols.as_slice())?;
    let venues = legs_limits(alloc, config.venues.as_slice())?;
    let LimitsTable {
        leg,
        sweep_dollars,
        day_dollars,
    } = config.limits;
    Ok(OrderLimits::new(leg, sweep_dollars, day_dollars, symbols, venues))
}
