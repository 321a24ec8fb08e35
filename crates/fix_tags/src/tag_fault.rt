//! What is wrong with the fields of a message that is read.

use thiserror::Error;

/// The first field that isn't there or isn't as its message allows.
#[derive(Clone, Copy, Debug, PartialEq, Eq, Error)]
pub enum TagFault {
    /// A field that must be there is not.
    #[error("M04 missing tag {0}")]
    Missing(u32),
    /// The value of a field is not what its message allows.
    #[error("M05 bad value of tag {0}")]
    BadField(u32),
}
