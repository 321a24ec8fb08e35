//! Why a day can't go on from its journals.

ghost use Rattle.std.specs.Prelude.{◌≡◌};
ghost use Rattle.journal_folder.specs.declared.restart_fault.RestartFault.TheVariants.{OutOfMemory};

use crate::fault::FolderFault;
use desk_words::{Printable, VenueName};
use std::alloc::{AllocError, AllocFailed};
use thiserror::Error;

/// Why a day can't go on from its journals, or begin them.
#[derive(Debug, PartialEq, Eq, Drop, Error)]
pub enum RestartFault {
    /// The folder can't be used.
    #[error("{0}")]
    Folder(FolderFault),
    /// The desk's journal can't be read or begun.
    #[error("journal desk: {0}")]
    Desk(FolderFault),
    /// That of a venue can't.
    #[error("journal {0}: {1}")]
    Venue(VenueName, FolderFault),
    /// The day ended in order, at this time.
    #[error("the day ended at {0}")]
    Ended(Printable<21>),
    /// This line of the desk's journal, counted from 1, can't be done again.
    #[error("journal desk: line {0} can't be done again")]
    DeskLine(usize),
    /// This line of a venue's journal can't.
    #[error("journal {0}: line {1} can't be done again")]
    VenueLine(VenueName, usize),
    #[error("out of memory")]
    OutOfMemory,
}

impl From<AllocError> for RestartFault {
    ghost from_gives = { λ _ fault. fault ≡ OutOfMemory };

    fn from(_: AllocError) -> RestartFault {
        RestartFault::OutOfMemory
    }
}

impl<T: Drop> From<AllocFailed<T>> for RestartFault {
    ghost from_gives = { λ _ fault. fault ≡ OutOfMemory };

    fn from(_: AllocFailed<T>) -> RestartFault {
        RestartFault::OutOfMemory
    }
}

/// The folder of a day's journals, and why the day can't go on from it.
#[derive(Debug, PartialEq, Eq, Drop, Error)]
#[error("{folder}: {fault}")]
pub struct JournalRefused {
    pub folder: String,
    pub fault: RestartFault,
}
