//! Why a line is lost before it is written.

use thiserror::Error;

/// Why a line doesn't wait.
#[derive(Clone, Copy, Debug, PartialEq, Eq, Error)]
pub enum Lost {
    /// There is no room for it, or as many were put as can be counted.
    #[error("no room")]
    NoRoom,
    #[error("out of memory")]
    OutOfMemory,
}
