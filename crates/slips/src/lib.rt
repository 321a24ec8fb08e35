//! Slips that a book gives out, one for each item of its list. None takes a byte: contracts alone see them.
//!
//! Promises:
//! - A new book (`new_book`) has given none, and `no_slips` holds none.
//! - Only `give` makes a slip: the book's list has one item more, and so have the slips of its holder. The item is a
//!   ghost value, which the caller picks.
//! - `join` hands slips over: they stand behind the holder's own, and the other has none.
//! - Slips that meet their book are for items of its list, each for another one (clause `held` of `compare`): no slip
//!   is there twice, and none was made up.
//!
//! See `docs/locks.md`, "Seats".
#![tactic(auto)]

mod giving;

pub use giving::{SlipBook, Slips, new_book, no_slips};
