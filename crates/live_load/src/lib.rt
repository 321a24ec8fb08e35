//! A desk's day with generated sweeps: simulated venues, callers in threads of their own that make sweeps and hand them
//! in, and the audit of it.
//!
//! Promises:
//! - `run_live` is refused for want of a socket, a thread or memory alone, since the audit finds no mismatch, whatever
//!   the threads do.
//! - The sweeps and the report that it tells are those of the day that was audited, of these venues' workers, by crate
//!   `desk_run` (`IsDeskDay`). Each venue is told as its worker left it, and so is whether an exchange answered
//!   (`IsLiveDay`).
//! - The shares placed, as the audit found them, are those of the sweeps that weren't given up, 10 for each venue.
//! - Its venues are the stated ones (`venues_of`, private).
//! - That the book's sweeps are those that callers placed, and that a day ends, is only tested.
//!
//! See `docs/live.md`.
#![tactic(auto)]

mod caller;
mod callers;
mod config;
mod day;
mod live_plan;
mod order;
mod progress;
mod promise;
mod running;
mod venues;
mod watch;

pub use day::{LiveDay, LiveVenue};
pub use live_plan::LivePlan;
pub use progress::{Progress, SoFar};
pub use running::run_live;
