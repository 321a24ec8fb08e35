//! The lines of a desk: what its standard input asks for.
//!
//! Promises:
//! - `read_line` answers exactly what a line asks for (`line_says`), or its first fault from left to right; or
//!   memory was wanted, which only a line that asks for legs does.
//! - `write_sweep` gives exactly the line of a sweep (`sweep_line`). What is written is read back: the line of up to
//!   a thousand legs, each in range and for a venue that has a name of its own, asks for those very legs under their
//!   reference (`written_sweeps_read_back`).
#![tactic(auto)]

mod command;
mod laws;
mod leg_words;
mod line_fault;
mod read;
mod words;
mod write;

pub use command::Command;
pub use laws::written_sweeps_read_back;
pub use line_fault::{LineFault, MAX_LINE, Word};
pub use read::read_line;
pub use write::write_sweep;
