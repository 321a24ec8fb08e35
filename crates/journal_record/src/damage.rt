//! A line that can't be read.

use thiserror::Error;

/// A whole line that isn't the record of one: its number, from 1, and how many bytes of the text are before it.
#[derive(Clone, Copy, Debug, PartialEq, Eq, Error)]
#[error("line {line} is damaged, at byte {at}")]
pub struct Damage {
    pub line: usize,
    pub at: usize,
}
