//! What a worker tells its journal, and a link that takes no byte before what was told is kept.
//!
//! Promises:
//! - The trait `Telling`: a deed is told as its line (`deed_line` of `journal_words`), and kept by a later call. One
//!   that tells nothing claims nothing.
//! - A `Teller` tells a journal, and `Untold` nobody, for a day without one.
//! - A `Door` keeps its link to itself. Bytes reach the link by one call alone, `Door::write`, which asks that no line
//!   is left unkept: so at each moment at which bytes went out, all that was told before was kept. No clause of a run's
//!   end is needed for it. The other calls are those of `Link`, with its clauses, and write nothing.
//! - What follows: whatever is told, kept and written in such an order, at each moment the bytes that went out are a
//!   beginning of those that the kept lines stand for (`laws::no_frame_goes_before_its_line`).
//! - Which lines stand for which bytes isn't said here: who writes a frame tells its line before.
#![tactic(auto)]

mod door;
pub mod laws;
mod teller;
mod telling;
mod untold;

pub use door::Door;
pub use teller::{Teller, fields_text};
pub use telling::Telling;
pub use untold::Untold;
