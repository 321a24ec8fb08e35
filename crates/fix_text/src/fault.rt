//! Why a frame can't be written.

use thiserror::Error;

/// A refusal of a call that writes a frame. It leaves what the call would have changed as it was.
#[derive(Clone, Copy, Debug, PartialEq, Eq, Error)]
pub enum TextFault {
    /// There is no field, the first tag isn't 35, or a tag is 0, 8, 9, 10 or above 999,999.
    #[error("T01 bad tag")]
    BadTag,
    /// A value is empty or holds SOH.
    #[error("T02 bad value")]
    BadValue,
    /// The fields take more than 4,096 bytes.
    #[error("T03 too long")]
    TooLong,
    #[error("T04 out of memory")]
    OutOfMemory,
}
