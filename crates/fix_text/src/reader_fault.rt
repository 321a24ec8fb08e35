//! Why frames can't be read.

use thiserror::Error;

/// A refusal of a call that reads: there was no memory for it, and it changed nothing.
#[derive(Clone, Copy, Debug, PartialEq, Eq, Error)]
pub enum ReaderFault {
    #[error("T04 out of memory")]
    OutOfMemory,
}
