//! What threads tell one another by flags: a count of changes that any of them wait for, and that workers are to stop.
//!
//! Promises:
//! - None: that a wait ends with a change, that no change is missed and that a worker stops is only tested.
#![tactic(auto)]

mod change_count;
mod stop;

pub use change_count::ChangeCount;
pub use stop::Stop;
