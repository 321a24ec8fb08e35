//! The executions of a day: what exchanges said, numbered from 1 in the order of the book, each with the book's answer.
//!
//! Promises:
//! - The executions behind a number that are lent of a day, at most so many, are exactly what was heard in it: the
//!   notes of its book's history, and between them those that the book didn't take, each behind as many entries as the
//!   history had then. Each has its number, its venue, all that it says, the words that were kept under its number, and
//!   the book's answer; the number of the last one is how many there are (`Executions::look`, private), where what
//!   earlier looks found is an index of the day (`IsIndex`). So are those that the book didn't take, lent alone
//!   (`Executions::look_for_untaken`, private).
//! - Each note that is lent of a day stands in its book's history or in the list of what that didn't take, whatever
//!   earlier looks found (`Executions::now`), and each that is lent as untaken has an answer that says so
//!   (`Executions::untaken_now`).
//! - All that a book didn't take, by the list that stands beside it, is lent once nothing is given any more, whatever
//!   was looked at before: exactly those, each under its number (`all_untaken`).
//! - A look leaves an index of a day as one (`Executions::look`), and so does whatever is asked of a book
//!   (`laws::calls_keep_an_index`); before the first look it is one (`laws::nothing_is_an_index`). That the book which
//!   a lock gives comes of the one that it gave before isn't carried through the lock, and so isn't said.
//! - An execution is told with all that its note and its words say, and the name at its venue's place (`named`); one of
//!   a venue that has no name isn't told. Where none is told, nothing of a venue that has one is on the list of what
//!   the book didn't take (`laws::what_is_not_told_is_not_listed`).
//! - How many notes of a venue the book didn't take is counted by the reason (`unbooked_now`).
//! - A look reads each entry of the history once in a day, and an execution by its place.
#![tactic(auto)]

mod counting;
mod executions;
mod heard;
pub mod laws;
mod lent;
mod naming;
mod place;
mod saying;

pub use counting::unbooked_now;
pub use executions::{Executions, all_untaken};
pub use heard::{Heard, HeardNote};
pub use lent::{LentNotes, SaidNote};
pub use naming::named;
