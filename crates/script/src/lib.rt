//! A replay script: its text is read into the events of a world, as a whole or line by line.
//!
//! Promises:
//! - `read_script` gives the script of a text, or the number of its first bad line, exactly as `script_of` says, for
//!   every text. It answers out of memory only where the text is a script.
//! - Every `Script` is within the limits that a world asks for (its invariant, `IsWithinLimits`). `into_parts` hands
//!   over by value exactly its parts, and says so.
//! - `read_day_event` reads a line behind the first, which may be a crash, exactly as `day_event_of_words` says.
//! - Not said: that memory is refused only where a growth really was.
#![tactic(auto)]

mod call;
mod crash;
mod day_event;
mod dialect_name;
mod event;
mod head;
mod kept;
mod line_fault;
mod lines;
mod loss;
mod parts;
mod read;
mod release;
mod release_leg;
mod script;
mod venue_choice;
mod word;

pub use day_event::{DayEvent, read_day_event};
pub use event::{is_passed_over, read_event};
pub use head::Head;
pub use line_fault::LineFault;
pub use lines::{Line, first_line};
pub use loss::Loss;
pub use parts::Parts;
pub use read::read_script;
pub use script::Script;
