//! The whole core in one thread: a world of desk, book, sessions and exchanges, and the events that move it. Its rules
//! are definitions, in `specs/`.
//!
//! Promises:
//! - The sweep theorem of the world of many venues: `the_sweep_theorem_holds`, `what_is_settled_stays_settled`.
//!   `what_holds_of_each_venue` and `sums_hold_whatever_happens` are parts of the first.
//! - An event changes one venue alone, and what was written, accepted and reported stands.
//! - The worked scripts compute.
#![tactic(auto)]

mod act;
mod event;
pub mod laws;
mod rows;
mod script_fault;

pub use act::Act;
pub use event::{Event, FrameNumber};
pub use rows::{
    a_break_with_doubt, a_break_with_none_lost, a_bust, a_close, a_close_answered,
    a_fill_and_a_cancel, a_reject_after_a_new, a_resend_request_again, a_resend_request_in_doubt,
    a_script_is_read, a_session_given_up, bad_lines_are_named, few_numbers, first_frames,
    frame_of_a_bust, frames_after_a_break, frames_of_a_quiet_session,
    frames_of_a_resend_request_again, frames_when_told, quiet_test_silent, told_and_settled,
    told_that_none_is_lost, told_the_next_number, two_venues, what_is_not_possible,
};
pub use script_fault::ScriptFault;
