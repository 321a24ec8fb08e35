//! The lines of a journal on a tape, a file of a fixed length: kept by one write and one sync over zeros, so that a
//! crash leaves what was kept and a beginning of what was being written.
//!
//! Promises:
//! - The trait `Tape`: what its calls do to the bytes that a read gives, and to those that a crash may leave, at each
//!   moment. No checksum is trusted; until a sync each byte that is written is the old one or the new one.
//! - The trait `Journal`: lines are told, and kept by a later call; nothing else counts as kept.
//! - A `JournalWriter` is a journal on any tape. Whatever a crash leaves of it has the lines that were kept, and behind
//!   them a beginning of the records of those that are told (its invariant): while a call runs too (`keep_lines`).
//! - So what is read of it are the lines kept, and the first of those that were told, each whole
//!   (`laws::what_a_crash_leaves_is_read`).
//! - `MemoryTape` is a tape in memory: the traits can be met.
//! - That a file is such a tape isn't said here, nor that what is read is what stands on the disk.
#![tactic(auto)]

mod commit;
mod keeper;
pub mod laws;
mod memory_tape;
mod tape;
mod text;
mod told;
mod writer;

pub use keeper::{Journal, JournalFault};
pub use memory_tape::MemoryTape;
pub use tape::{Tape, TapeFault};
pub use text::text_of;
pub use told::Told;
pub use writer::JournalWriter;
