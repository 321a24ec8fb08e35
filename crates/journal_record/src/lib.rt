//! The lines of a journal as bytes: each with a sum over it and all lines before it, written and read back.
//!
//! Promises:
//! - `append_record` puts exactly the record of a line (`record_text`) behind a text, or leaves that as it was. It
//!   wants memory only where there is no room for the record.
//! - A `LineReader` gives the lines of a text in order, each where the text has its record (`next_said`). Behind the
//!   last end of a line it stops. At a line that isn't a record it names the line's number and place, and stays there.
//! - `judge` says of a whole text how many lines count, where they end, and how the text goes on (`IsJudged`).
//! - `lines_of` gives those lines (`HasAll`).
//! - What was written reads back, with any beginning of what was being written behind it: those of its lines that are
//!   whole, and the rest as torn (`laws::what_was_kept_is_read`).
//! - That a damaged line never has the sum of its bytes isn't said: of one changed byte it is so, of more it is likely.
#![tactic(auto)]

mod damage;
mod judging;
pub mod laws;
mod lines;
mod reader;
mod record;
mod sum;

pub use damage::Damage;
pub use judging::{Judged, TextEnd, judge};
pub use lines::{TextLines, lines_of};
pub use reader::LineReader;
pub use record::{BESIDE_LINE, RecordFault, append_record, is_line};
