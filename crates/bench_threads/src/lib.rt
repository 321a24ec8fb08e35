//! What the program `bench` does with the locks of a day in threads, and with the turns of a worker, as often as it is
//! asked to.
#![tactic(auto)]

mod threads_part;
mod turn_part;

pub use threads_part::{Load, ThreadsPart, run_threads};
pub use turn_part::run_turns;
