//! What `dispatch run` is asked for: the options of its words, the desk's file with its passwords and tokens, and why
//! it fails.
//!
//! Promises:
//! - Out of memory while the file is read is never told as a fault of the file (`file_fault`, private).
//!
//! See `docs/run.md`.
#![tactic(auto)]

mod day;
mod fault;
mod file;
mod folder;
mod options;
mod passwords;
mod tokens;

pub use day::today;
pub use fault::CommandFault;
pub use file::read_file;
pub use folder::folder_of;
pub use options::{Options, read_options, run_command};
pub use passwords::read_passwords;
pub use tokens::read_tokens;
