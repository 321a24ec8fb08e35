//! What `dispatch run FILE --check` prints of a desk's file.
//!
//! Promises:
//! - The text has what the desk is called, the lines of each venue, where the journal is kept, the page is served and
//!   lines are taken, the users and their rights, and what is limited (`check_text`). The one refusal is out of memory.
//!
//! See `docs/run.md`.
#![tactic(auto)]

mod check;
mod venue_check;

pub use check::check_text;
