//! An execution, as a desk is told: what an exchange said, and whether the book took it.
//!
//! Promises:
//! - An execution is exactly the stated text (`execution_text`), which begins with `unbooked` and ends with the reason
//!   where the book didn't take it. An ExecID and a price stand in it as they are shown: printable, and whole. What the
//!   exchange says beside it stands behind it: its id of the order, its time, the reason and a text, each where it says
//!   it, with `..` behind what is cut.
//! - Why the book didn't take a note follows from its answer alone, and from whether the note can be
//!   read (`why_untaken`).
//! - How much of a venue wasn't taken is exactly the stated line (`unbooked_text`).
#![tactic(auto)]

mod counts;
mod execution;
mod untaken;
mod words;

pub use counts::{UnbookedCounts, UnbookedStatus};
pub use execution::{Execution, IdShown, PriceShown, UnreadText};
pub use untaken::{Untaken, why_untaken};
pub use words::{WordsShown, WordsText};
