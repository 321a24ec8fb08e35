//! What was paid in each leg of a book, exactly: for the trades that no bust names, at the prices that venues told.
//!
//! Promises:
//! - `Worths` keeps beside a book what was paid in each leg (`leg_worth`): the sum of shares times price over the
//!   trades that no bust names, in hundred-millionths of the currency's unit, and beside it the shares of those whose
//!   price can't be read exactly (`AreWorths`). It walks no history.
//! - `Worths::change_by` says what a note changes, should the book take it (`note_change`), and makes room for that; it
//!   may want memory, and then nothing is changed. `settle` makes the change, and can't be refused. Where the book took
//!   the note, what is kept is again that of the book (`laws::what_moves_is_kept`). A sweep that is opened and a leg
//!   that is withdrawn change nothing of it (`laws::openings_and_withdrawals_keep_it`). `rows` has examples.
#![tactic(auto)]

mod change;
pub mod laws;
pub mod rows;
mod worth;
mod worths;

pub use change::WorthChange;
pub use worth::Worth;
pub use worths::Worths;
