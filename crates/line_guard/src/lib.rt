//! A session ends its connection where its exchange expects a number again which it had passed (E14). No exchange that
//! keeps the rules meets that guard.
//!
//! Promises:
//! - While a session logs on or settles, no message of the present connection tells a number up to the settled one, and
//!   at none does the session end its connection so: on every line (`the_guard_costs_nothing`), and over restarts
//!   (`the_guard_costs_nothing_over_restarts`).
//! - Once a session is up, such a request may be a late one (`a_request_for_what_was_passed_may_be_late`).
//! - That the guard settles nothing is a law of `session_core` (`forgetting_settles_nothing`).
#![tactic(auto)]

pub mod laws;
