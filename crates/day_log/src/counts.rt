//! How many lines of a log were kept and lost.

/// How many lines of a log were kept, were lost, and wait to be written: together all that were put.
#[derive(Clone, Copy, Debug, PartialEq, Eq)]
pub struct LogCounts {
    pub kept: u64,
    pub lost: u64,
    pub waiting: u64,
}
