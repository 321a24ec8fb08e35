//! The vocabulary of an order: plain values, each with an exact range.
//!
//! Promises:
//! - The constructors of `Symbol`, `Terms`, `LegId` and `VenueId` accept exactly their ranges, and nothing else
//!   makes such a value.
//! - The five parts of a `Split` always add up to the leg's shares; `fill`, `cancel_rest`, `withdraw` and `bust` are
//!   one equation each, with the refusal, and a refusal changes nothing.
//! - The printed forms of a symbol, a leg's number and a leg are the stated texts.
#![tactic(auto)]

mod fault;
mod leg;
mod leg_id;
mod leg_state;
mod placed_leg;
mod side;
mod split;
mod sweep;
mod symbol;
mod terms;
mod totals;
mod venue;

pub use fault::LegFault;
pub use leg::Leg;
pub use leg_id::{LegId, MAX_PLACE, MAX_SWEEP};
pub use leg_state::LegState;
pub use placed_leg::PlacedLeg;
pub use side::Side;
pub use split::Split;
pub use sweep::{Legs, Routed, Sweep};
pub use symbol::Symbol;
pub use terms::{MAX_PRICE, MAX_SHARES, Terms};
pub use totals::Totals;
pub use venue::{MAX_VENUE, VenueId};
