//! What the words of the command line are.

use thiserror::Error;

/// What the words of the command line were expected to be.
#[derive(Clone, Copy, Debug, PartialEq, Eq, Error)]
pub enum Expected {
    #[error("COUNT PART")]
    Request,
    #[error("write, read, report, stream1, stream64, stream4096 or all")]
    Part,
    #[error("a number of messages from 1 to 1000000")]
    Messages,
}
