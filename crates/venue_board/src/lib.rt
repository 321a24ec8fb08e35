//! What the worker of a venue tells others while it runs: how far its session is and why its connection ended, how many
//! legs it took, how many are in doubt, and how many were withdrawn.
//!
//! Promises:
//! - A code stands for the progress that it was made of and for no other (`Progress::code`, `of_code`, private). The
//!   board is numbers that one thread writes and others read, so nothing is promised of what a reader finds; and a
//!   worker that tells on a board is the same worker to each contract (`Worker::telling_on`).
#![tactic(auto)]

mod board;
mod loss;
mod progress;

pub use board::VenueBoard;
pub use loss::Loss;
pub use progress::Progress;
