//! What became of each leg's shares: the book of the reports and withdrawals.
//!
//! Promises:
//! - `Book` takes each sweep as it is opened, each leg as it is withdrawn and each venue's notes, and says what
//!   became of the shares. Each call is one equation with its definition over the whole history (`open_sweep`,
//!   `apply`, `withdraw`, `totals`, `venue_resolved`), refusals in their order; out of memory changes nothing, and
//!   is answered by `open_sweep` only for a sweep that would be opened, and by `apply` only for a note that would
//!   have moved. That it comes only where memory was refused is tried, and not proved: `Book::new` and `open_sweep`
//!   make new lists.
//! - `withdraw` and the questions take no memory. It keeps running sums, and walks its history in no call: that is
//!   read, and not proved. Laws of its definition, over every list of calls: each leg's five parts add up, and go as
//!   a `Split`'s calls leave them; a report counts once; the history leads to the book again (`src/laws.rt`).
#![tactic(auto)]

mod applied;
mod book;
mod book_entry;
mod book_fault;
mod booked_leg;
pub mod laws;
mod ledger;
mod leg_change;
mod limits;
mod reports;
pub mod rows;
mod sweep_shares;

pub use applied::Applied;
pub use book::Book;
pub use book_entry::BookEntry;
pub use book_fault::BookFault;
pub use booked_leg::BookedLeg;
pub use limits::{MAX_DAY_SHARES, MAX_LEGS};
pub use sweep_shares::shares_of;
