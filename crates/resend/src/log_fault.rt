//! Why a number can't be spent.

use thiserror::Error;

/// Why a number can't be spent. The log is as it was.
#[derive(Clone, Copy, Debug, PartialEq, Eq, Error)]
pub enum LogFault {
    /// The next number is the one that no message may have.
    #[error("N01 numbers spent")]
    NumbersSpent,
    #[error("N02 out of memory")]
    OutOfMemory,
}
