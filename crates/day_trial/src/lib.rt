//! What the days of workers begin with, and what is checked at their ends: callers, workers over links in memory, a
//! link that says what it is told to say, and the sums of the sweeps, the legs and trades of the venues, and the audit.
#![tactic(auto)]

mod caller;
mod day_fault;
mod ending;
mod opening;
mod outcome;
mod said;
mod script;
mod shown;
mod sums;
mod venue_checks;

pub use caller::{Caller, CallerEnd};
pub use day_fault::DayFault;
pub use ending::day_outcome;
pub use opening::{TRADES_SIX, memory_link, worker_of};
pub use outcome::{Outcome, SweepEnd, VenueEnd};
pub use said::{FENCE, LOGON, Said, frames_of};
pub use script::Script;
pub use shown::Shown;
