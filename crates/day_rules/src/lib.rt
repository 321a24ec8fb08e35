//! What the logs of a desk's day say together: the lines that it took, and the logs of its venues.
//!
//! Promises:
//! - `judge` says of each sentence of the sweep theorem exactly what the definition does (`judged` in `Judged.antt`):
//!   that it holds, or the first line that breaks it, over the logs as they were heard.
//! - `DeskDay::hear` reads a line of the desk's log exactly as the definition does (`desk_heard`): which sweeps were
//!   placed, under which numbers and where, and which line doesn't fit those before it. `VenueDay::hear` judges a
//!   message of a venue's log as `Watch` does, and notes where things stand (`venue_heard`).
//! - `sweep_sums` gives what became of a sweep's shares by the logs of its venues (`sweep_sums`).
//! - Not said: that memory is refused only where the system does so.
#![tactic(auto)]

mod desk_day;
mod first_place;
mod intake;
mod judged;
mod lines;
mod notes;
mod order_rules;
mod sentence;
mod sweep_day;
mod venue_day;

pub use desk_day::DeskDay;
pub use judged::{Place, SentenceVerdict, judge};
pub use sentence::{SENTENCES, Sentence};
pub use sweep_day::sweep_sums;
pub use venue_day::VenueDay;
