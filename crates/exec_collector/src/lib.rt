//! The book behind a lock, and the seats on which the venues' workers count the shares that they resolve.
//!
//! Promises:
//! - What lies under the lock, `CountedBook`, replays from its own history, its seats add up to what all its venues
//!   have resolved, and its side of each venue's bookings is what it took of the venue, each time the lock is got (its
//!   invariant). Its `apply` answers as the book does, and its `withdraw` too, of a leg of the seat's venue; one of
//!   another venue it refuses. The seat gains exactly what ceased to be open. Those of `Collector` take the lock and
//!   promise what the seat gains: by a trade that moves its own shares, by a first report or a bust none, by a
//!   withdrawal all the leg's shares; any other answer gains none. A seat says which notes were booked on it, in order:
//!   the clause `booked` of `apply` adds the note that it took, and no other call adds one. And it says which legs the
//!   book was asked to withdraw: the clause `asked` of `withdraw` adds the leg, whatever the book answers, and no other
//!   call adds one. Of a note that ends a leg (cancel, reject, expire, refuse) the clause says only that the seat's
//!   amount doesn't fall, and not by how much it rises: the exact amount is promised of `CountedBook`, under the lock.
//! - Beside the book stands the list of the notes that it didn't take (`Unbooked`), each with the book's answer, in the
//!   order in which they were given. `apply` writes each note in the book or in the list, or nothing in either where it
//!   answers out of memory; no other call changes the list. Each note on a seat is an entry of the book or in the list,
//!   exactly once (`each_note_is_told_once`).
//! - What lies under the lock, `DayBook`, keeps beside the counted book the words of each note, in the order in which
//!   the notes were given: `apply` adds those that it is given to the others just where it takes or lists the note
//!   (clause `words`), no other call changes them, and there is one for each note (`DayBook::words`). What was paid in
//!   a leg is the sum over its trades that no bust names (`DayBook::worth`), and the shares of its trades that the
//!   book didn't take and has none under their id of are told beside it (`DayBook::disputed`), up to the greatest
//!   number of the type. Both are kept, so that no call walks the history or the list.
//! - `totals` is that of a book that replays.
//! - `lend` and `lend_beside` take closures that only open sweeps; `read_all` lends book and list as they are at one
//!   moment.
//! - `check_count` is `Ok` exactly where the seats add up to what is resolved, and always is with every part of the
//!   ledger. Whatever it answers, what stands on each seat is what the book took of its venue (clause `kept`): each
//!   note and each withdrawal was answered by the book's rule, and what the history has of the venue are just the notes
//!   that moved and the legs that the book withdrew. What the list has of the venue are just the notes on the seat that
//!   didn't move (clause `unbooked`).
//! - That a lock is ever got is claimed nowhere.
//!
//! See `docs/locks.md`.
#![tactic(auto)]

mod accounts;
mod beside;
mod blank_book;
mod booking;
mod collector;
mod counted_book;
mod counting;
mod day_book;
mod disputed;
mod laws;
mod opened_sweeps;
mod placed_sweep;
mod unbooked;
mod venue_bookings;
mod worker_seat;

pub use accounts::Accounts;
pub use beside::Beside;
pub use blank_book::BlankBook;
pub use booking::Booking;
pub use collector::Collector;
pub use counted_book::CountedBook;
pub use counting::{Miscounted, check_count};
pub use day_book::DayBook;
pub use laws::each_note_is_told_once;
pub use placed_sweep::PlacedSweep;
pub use unbooked::Unbooked;
pub use worker_seat::WorkerSeat;
