//! A list that two sides keep, and of which they always agree. Neither takes a byte: contracts alone see them.
//!
//! Promises:
//! - `new_list` makes both sides of one new list, which is empty.
//! - Where both sides meet, they are the same list (clause `agreed` of each method): so what one side is known to be,
//!   the other one is too, though it was elsewhere meanwhile, as under a lock or in another thread.
//! - Only `push` changes the list: it takes both sides, and one item more is on each. The item is a ghost value, which
//!   the caller picks.
//!
//! See `docs/locks.md`, "Seats".
#![tactic(auto)]

mod sides;

pub use sides::{BookSide, SeatSide, new_list};
