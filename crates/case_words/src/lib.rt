//! What is said, in the words that cases have for it.
#![tactic(auto)]

mod report;
mod session;

pub use report::report_text;
pub use session::session_text;
