//! The sweep theorem of `dispatch run`, from its exit status to the bytes on each venue's link.
//!
//! Promises:
//! - `laws::what_run_prints_is_safe`: a run that ends with status 0 printed what some file's bytes say, or a day of the
//!   configuration that they spell; one with 7 or 9 printed such a day, which leaves something open. The day is told of
//!   an audit of what its workers left, and each venue of the file is safe in it, over all its lives, whatever exchange
//!   keeps the rules (`IsSafeAtOver` of `desk_theorem`).
//! - Not said: what no contract carries, `docs/believe.md`, stop 12.
//!
//! See `docs/theorem.md`, "Of a day that is printed".
#![tactic(auto)]

pub mod laws;
