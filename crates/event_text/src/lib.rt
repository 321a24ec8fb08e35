//! What an event did, in words: a step of a replay as an engineer reads it.
//!
//! Promises:
//! - The text of a step is defined (`IsStepText` in `specs/Step.antt`), by how far the world had come before the
//!   event, the world after it, and what `happen` told. The frames are some that are read as the world's.
//! - `tell_event` makes the event happen, exactly as defined, and gives such a text. Which legs were told as settled
//!   is `settled_now`.
//! - The only refusal is out of memory. Not said: that memory is wanted only where a growth was refused, and that
//!   the bytes of the frames are those that the world keeps. A text is right that shows other bytes, if they are
//!   read as the same messages.
#![tactic(auto)]

mod at_venue_text;
mod before;
mod before_crash;
mod crash_text;
mod deeds;
mod frame_head;
mod frames_text;
mod idle;
mod idle_text;
mod journal_line;
mod journal_lines;
mod note_text;
mod refusal_text;
mod say;
mod settled;
mod telling;

pub use before::Before;
pub use before_crash::BeforeCrash;
pub use crash_text::print_crash;
pub use deeds::print_deeds;
pub use journal_lines::JournalLines;
pub use settled::Settled;
pub use telling::tell_event;
