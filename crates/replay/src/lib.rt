//! The whole core in one thread, over bytes: desk, book, sessions, exchanges and every frame ever written between them,
//! and the events that move them. What it does is defined in crate `schedule`.
//!
//! Promises:
//! - `run` takes the dialects of 1 to 16 venues and a list of events. Its world is exactly the definition's for them
//!   (clause `world`), and the sweep theorem holds of it (clause `theorem`, `HoldsOf` in `schedule`); or memory was
//!   wanted. In it are desk, book, sessions, exchanges, and every frame ever written, each kept as its bytes and
//!   read as the message that it was written of.
//! - `accepted`, `closed_at`, `given`, `made`, `released`, `state`, `phase`, `connection`, `session_expects`,
//!   `exchange_expects`, `venues`, `desk`, `book` and `totals` of a `World` are those of the definition, and take no
//!   memory.
//! - `frames_to` and `frames_from` lend the frames, as many as the definition has and each with its connection, and
//!   some way of reading reads them as its messages: that it is the venue's own dialect, the clause doesn't say.
//! - `happen` makes one event, exactly as defined. It tells the number of a sweep that was placed, the refusal of a
//!   call that it made, the book's answer to its note, and why the session ended its connection (`told`). What the
//!   desk and the venues' calls refuse is handed back as it is.
//! - Not said: that memory is wanted only where a growth was refused. A world whose run wanted memory is gone.
#![tactic(auto)]

mod book_again;
mod day;
mod deed;
mod desk_again;
mod event_outcome;
mod loss_fault;
mod mark;
mod noted;
mod redo;
mod refusal;
mod ruling;
mod running;
mod starting;
mod telling;
mod venue_journal;
mod world;

pub use day::Day;
pub use event_outcome::EventOutcome;
pub use loss_fault::LossFault;
pub use refusal::Refusal;
pub use running::run;
pub use world::{World, venue_of};
