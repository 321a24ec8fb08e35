//! Limits before the wire: what a sweep may have at most, by the desk's own hand, and what of a day is placed.
//!
//! Promises:
//! - A sweep is judged by its legs, in the order of the limits: the shares of each leg, its dollars, the sweep's, the
//!   day's with this sweep, and then the symbols. The answer is the first limit that it is over, with the figure and
//!   the limit; or what the day comes to with it (`judge`, by the definition `judged`).
//! - Dollars are exact: shares times ten-thousandths of a dollar, and sums of them. None is rounded, capped or wrapped.
//! - A sweep that is over none of the limits is within each of them, in their own words (`laws`, by `IsWithin`).
//! - What a day comes to with a sweep that is within the limits is within the day's (`MayComeTo`).
//! - What is over, a limit's code and dollars are shown as the stated texts (`over_text`, `over_code`, `dollars_text`).
//!   `worked` has examples.
//!
//! See `docs/limits.md`.
#![tactic(auto)]

mod dollars;
pub mod laws;
mod limits;
mod money;
mod over;
pub mod worked;

pub use dollars::Dollars;
pub use limits::{LegLimits, OrderLimits, judge};
pub use over::{Excess, Over};
