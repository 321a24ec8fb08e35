//! The lines of a day's journals in words: what a venue's worker did, and what the desk did, each with its time.
//!
//! Promises:
//! - `act_line`, `leg_line` and `heard_line` give exactly the line of a deed (`deed_line`), and `desk_line` that of the
//!   desk (`desk_text`).
//! - `read_deed` and `read_desk` say exactly what a line says (`timed_said`, `desk_said`), or its fault. Out of memory
//!   comes only where the line needs memory.
//! - What is spelled reads back, and is a line that a journal takes (`laws`).
#![tactic(auto)]

mod act;
mod deed;
mod desk_deed;
mod desk_lines;
mod fault;
pub mod laws;
mod leg_act;
mod read;
mod spell;
mod split;

pub use act::Act;
pub use deed::{Deed, DeedLine};
pub use desk_deed::DeskDeed;
pub use desk_lines::{DeskLine, desk_line, read_desk};
pub use fault::WordsFault;
pub use leg_act::LegAct;
pub use read::read_deed;
pub use spell::{act_line, heard_line, leg_line};
