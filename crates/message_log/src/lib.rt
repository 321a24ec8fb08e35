//! The log of a venue's messages: the text of a line, and the lines that wait to be written.
//!
//! Promises:
//! - `log_line` gives exactly the line of a message (`line_text`): its stamp, its direction, and its bytes, each as
//!   it is logged. A `LogQueue` always adds up: kept, lost and waiting are the messages put. Each of its calls is
//!   one equation with its definition; a line is lost only where there is no room for it or no memory, and `take`
//!   hands over all that wait, in order. What `LogWriter` writes of them is kept only if all of it was written,
//!   behind what was there.
//! - That a write fails only where the system refuses it isn't said.
#![tactic(auto)]

mod direction;
mod line;
mod lost;
mod queue;
mod writer;

pub use direction::Direction;
pub use line::log_line;
pub use lost::Lost;
pub use queue::LogQueue;
pub use writer::LogWriter;
