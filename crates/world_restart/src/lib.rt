//! The world of many venues, where the dispatcher is killed at any moment and started again from its journals.
//!
//! Promises:
//! - The sweep theorem over restarts: `the_sweep_theorem_holds_over_restarts`,
//!   `what_is_settled_stays_settled_over_restarts`.
//! - The notes that were booked and lost come again (`the_notes_come_again`).
//! - What a journal has to keep of a line is the dispatcher's deed alone: `the_deeds_give_the_lines`.
//! - A day without a crash is a run of the world (`a_day_without_a_crash_is_a_run`).
//! - The worked day computes.
#![tactic(auto)]

pub mod laws;
mod rows;

pub use rows::{
    a_fill_comes_again, a_leg_in_doubt_is_settled_after_a_crash, a_line_is_lost,
    a_sweep_is_forgotten, a_withdrawal_is_kept, an_order_is_lost_with_its_line, before_a_crash,
    what_reached_the_exchange_is_kept,
};
