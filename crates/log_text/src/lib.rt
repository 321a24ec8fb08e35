//! The log of a venue's messages is read, this program's or one of QuickFIX: what a line says, and why a line says
//! nothing.
//!
//! Promises:
//! - `read_line` gives exactly what a line says (`line_said`), or its first fault from the front. Out of memory
//!   comes only where the list that is handed in has less room than the line is long.
//! - What `log_line` wrote reads back (`logged_lines_read_back`): its time, its direction and its bytes. That
//!   nothing else reads as a line isn't said.
#![tactic(auto)]

mod fault;
pub mod laws;
mod line;
mod message;
mod passed_over;
mod quickfix;
mod step;

pub use fault::LineFault;
pub use line::{LogLine, read_line};
pub use passed_over::is_passed_over;
pub use quickfix::{QuickfixLine, direction_between, read_quickfix};
