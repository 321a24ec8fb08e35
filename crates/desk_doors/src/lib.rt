//! What opens the doors of a desk's day: the servers of its lines and of its page, and the limits of its orders.
//!
//! Promises:
//! - The limits of a day are those of its file: those of its `[limits]`, its symbols, and those of its venues in their
//!   order (`day_limits`).
//! - Why lines or a page can't be served is no mismatch of the audit (`open_lines`, `open_pages`).
//! - Who may send lines or ask for the page, and that the Unix socket is removed at the end (`close_lines`), is only
//!   tested.
//!
//! See `docs/run.md`.
#![tactic(auto)]

mod limiting;
mod lines;
mod pages;

pub use limiting::day_limits;
pub use lines::{LineDoors, LineHall, close_lines, open_lines};
pub use pages::open_pages;
