//! A text in pieces, parted by a byte: lines, words, or what stands between other separators.
//!
//! Promises:
//! - `Pieces` gives the pieces of a text one after the other, one more than there are separators in it, the empty ones
//!   too. They lie where the text has them, and it takes no memory.
#![tactic(auto)]

mod pieces;

pub use pieces::Pieces;
