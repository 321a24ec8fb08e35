//! Why a message or a value couldn't be written.

ghost use Rattle.std.specs.Prelude.{◌≡◌};
ghost use Rattle.fix_tags.specs.declared.write_fault.WriteFault.TheVariants.{OutOfMemory};

use std::alloc::{AllocError, AllocFailed};
use thiserror::Error;

/// A refusal to write. It leaves the buffer as it was.
#[derive(Clone, Copy, Debug, PartialEq, Eq, Error)]
pub enum WriteFault {
    /// The value of this tag isn't one of its form.
    #[error("M01 bad value of tag {0}")]
    BadValue(u32),
    /// The fields of the message take more than 4,096 bytes.
    #[error("M02 too long")]
    TooLong,
    /// There is no memory left.
    #[error("M03 out of memory")]
    OutOfMemory,
}

impl From<AllocError> for WriteFault {
    ghost from_gives = { λ _ e. e ≡ OutOfMemory };

    fn from(_e: AllocError) -> WriteFault {
        WriteFault::OutOfMemory
    }
}

impl<T: Drop> From<AllocFailed<T>> for WriteFault {
    ghost from_gives = { λ _ e. e ≡ OutOfMemory };

    fn from(_e: AllocFailed<T>) -> WriteFault {
        WriteFault::OutOfMemory
    }
}
