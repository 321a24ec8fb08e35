//! Why fields are no order or no report, and why one couldn't be written.

use thiserror::Error;

/// What is wrong with the fields of a message that is read. Reading takes no memory.
#[derive(Clone, Copy, Debug, PartialEq, Eq, Error)]
pub enum DialectFault {
    /// A field that must be there is not.
    #[error("V01 missing tag {0}")]
    Missing(u32),
    /// The value of a field isn't one that its tag may have here.
    #[error("V02 bad value of tag {0}")]
    Bad(u32),
    /// The order doesn't carry the mark of a sweep's leg.
    #[error("V03 not marked")]
    NotMarked,
    /// TimeInForce (59) isn't there or isn't `3`.
    #[error("V04 not immediate or cancel")]
    NotIoc,
}

/// Why an order or a report couldn't be written.
#[derive(Clone, Copy, Debug, PartialEq, Eq, Error)]
pub enum SpellFault {
    /// There is no memory left to write to.
    #[error("V05 out of memory")]
    OutOfMemory,
}
