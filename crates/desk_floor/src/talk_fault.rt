//! Why no line is taken any more.

ghost use Rattle.std.specs.Prelude.{◌≡◌};
ghost use Rattle.desk_floor.specs.declared.talk_fault.TalkFault.TheVariants.{OutOfMemory};

use std::alloc::{AllocError, AllocFailed};
use std::io::{self, ErrorKind};
use thiserror::Error;

/// Why no line is taken any more, or none is told.
#[derive(Clone, Copy, Debug, PartialEq, Eq, Error)]
pub enum TalkFault {
    /// The input can't be read.
    #[error("read failed")]
    ReadFailed,
    /// The output can't be written.
    #[error("write failed")]
    WriteFailed,
    #[error("out of memory")]
    OutOfMemory,
}

impl TalkFault {
    /// Of an input that failed so.
    pub fn of_read(error: &io::Error) -> TalkFault {
        match error.kind() {
            ErrorKind::OutOfMemory => TalkFault::OutOfMemory,
            _ => TalkFault::ReadFailed,
        }
    }
}

impl From<AllocError> for TalkFault {
    ghost from_gives = { λ _ fault. fault ≡ OutOfMemory };

    fn from(_: AllocError) -> TalkFault {
        TalkFault::OutOfMemory
    }
}

impl<T: Drop> From<AllocFailed<T>> for TalkFault {
    ghost from_gives = { λ _ fault. fault ≡ OutOfMemory };

    fn from(_: AllocFailed<T>) -> TalkFault {
        TalkFault::OutOfMemory
    }
}
