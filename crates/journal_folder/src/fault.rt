//! Why a folder can't be used.

ghost use Rattle.std.specs.Prelude.{◌≡◌};
ghost use Rattle.journal_folder.specs.declared.fault.FolderFault.TheVariants.{OutOfMemory};

use std::alloc::{AllocError, AllocFailed};
use thiserror::Error;

/// Why a day's folder of journals can't be used, or read.
#[derive(Clone, Copy, Debug, PartialEq, Eq, Error)]
pub enum FolderFault {
    /// It isn't there and can't be made, or can't be listed.
    #[error("the folder can't be made or read")]
    NoFolder,
    /// Another program has its lock.
    #[error("another dispatcher runs on it")]
    Taken,
    #[error("file {file} can't be read")]
    CantRead {
        file: usize,
    },
    /// A file of a greater number is there.
    #[error("file {file} is gone")]
    Gone {
        file: usize,
    },
    /// A file is made of which the head isn't kept, or it can't be made.
    #[error("file {file} can't be written")]
    CantWrite {
        file: usize,
    },
    /// A line of it is whole and can't be read.
    #[error("file {file} is damaged at line {line}, byte {at}")]
    Damaged {
        file: usize,
        line: usize,
        at: usize,
    },
    /// Its first line isn't the head of a file of this number.
    #[error("file {file} has no head of a journal")]
    NoHead {
        file: usize,
    },
    /// Its head says that more lines count before it than are there.
    #[error("file {file} follows {after} lines, of which {found} are there")]
    LinesGone {
        file: usize,
        after: u64,
        found: usize,
    },
    /// Its head is that of another day, desk or venue.
    #[error("file {file} is of another day, desk or venue")]
    OtherWords {
        file: usize,
    },
    #[error("out of memory")]
    OutOfMemory,
}

impl From<AllocError> for FolderFault {
    ghost from_gives = { λ _ fault. fault ≡ OutOfMemory };

    fn from(_: AllocError) -> FolderFault {
        FolderFault::OutOfMemory
    }
}

impl<T: Drop> From<AllocFailed<T>> for FolderFault {
    ghost from_gives = { λ _ fault. fault ≡ OutOfMemory };

    fn from(_: AllocFailed<T>) -> FolderFault {
        FolderFault::OutOfMemory
    }
}
