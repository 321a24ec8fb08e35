//! The sweeps of a day, as the book has them, with the five parts of their shares.
//!
//! Promises:
//! - All sweeps of a book are told in the order of their numbers, each with its parts, which add up to its shares
//!   (`booked_sweeps`).
//! - A sweep that is asked for behind the book's lock is told as a book has it that its own history leads to
//!   (`sweep_now`), and what was paid for it with it, as both are at one moment (`paid_sweep_now`). All sweeps of a day
//!   are so at its end (`paid_sweeps`).
#![tactic(auto)]

mod paid;
mod sweeps;

pub use paid::{leg_paid, paid_sweep_now, paid_sweeps};
pub use sweeps::{booked_sweeps, sweep_now};
