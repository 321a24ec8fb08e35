//! What the program `bench` does with desk, book and session, and with the replay of a day, as often as it is asked to.
#![tactic(auto)]

mod day_part;
mod replay_part;

pub use day_part::{DayPart, MAX_DAY, run_day};
pub use replay_part::{ReplayPart, run_replay};
