//! What a message says in words beside its note: the exchange's id of the order, its time, text and reason.
//!
//! Promises:
//! - `read_words` gives exactly the words of a frame (`words_of`): of each of ten tags the value of its first field,
//!   or its first bytes, up to a stated number, and whether it has more. What isn't said is empty. It takes no memory,
//!   and `ReportWords` owns nothing.
//! - A `WordList` is the list of the words that were pushed, in order. It keeps of each just its bytes, one behind the
//!   other in one text: so words that say nothing take none there. `push` may want memory, and leaves the list as it
//!   was; `get` gives the words at a place as they were pushed, and takes no memory.
//! - `rows` has examples.
#![tactic(auto)]

mod first_words;
mod placed;
mod report_words;
pub mod rows;
mod word_list;

pub use first_words::FirstWords;
pub use report_words::{ReportWords, read_words};
pub use word_list::WordList;
