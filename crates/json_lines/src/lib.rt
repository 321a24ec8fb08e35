//! The lines of a desk's day in JSON, for programs that read them: an object for each answer, each change, each
//! execution, each line of `status` and each of the end.
//!
//! Promises:
//! - Each text is the stated one, over the value that it is written of (`Line::json`, `doubt_json`, `totals_json`).
//!   Texts of others stand in them as strings of JSON. That a whole text is JSON is only tested.
//! - Each call refuses for lack of memory alone; that memory was wanted isn't said.
//!
//! See `docs/run.md`.
#![tactic(auto)]

mod answer_line;
mod end_lines;
mod execution_line;
mod form;
mod line;
mod news_line;
mod quoted;
mod state;
mod status_line;

pub use end_lines::{AUDIT_JSON, doubt_json, totals_json};
pub use form::Form;
pub use line::Line;
