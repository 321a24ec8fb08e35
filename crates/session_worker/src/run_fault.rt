//! Why workers can't be run.

use thiserror::Error;

/// Why workers can't be run. Those that were started have ended, and their ends are dropped.
#[derive(Clone, Copy, Debug, PartialEq, Eq, Error)]
pub enum RunFault {
    #[error("out of memory")]
    OutOfMemory,
    /// The system makes no more threads.
    #[error("no thread")]
    NoThread,
}
