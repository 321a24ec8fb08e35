//! Whether an input may be read without waiting.
//!
//! Promises:
//! - An input that the system doesn't watch is ready at once: a read of it is to show what it gives.
//! - Not said: that `wait` ends in time or with a `Wakeup`, and that a read which was said to be ready gives something.
#![tactic(auto)]

mod ready;
mod wakeup;

pub use ready::Readiness;
pub use wakeup::Wakeup;
