//! Why a text is no script.

use thiserror::Error;

/// Why a text is no script.
#[derive(Clone, Copy, Debug, PartialEq, Eq, Error)]
pub enum ScriptFault {
    /// This line isn't of the form, counted from 1 over all lines; or the first line is missing, and this is one above
    /// the last.
    #[error("line {0}")]
    Line(u64),
    #[error("out of memory")]
    OutOfMemory,
}
