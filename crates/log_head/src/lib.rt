//! The dialect that the lines at the head of a venue's log name.
//!
//! Promises:
//! - What the lines say of the dialect of the log's orders is exactly `head_after`, and the dialect that is known by
//!   them `dialect_in`.
#![tactic(auto)]

mod head;

pub use head::Head;
