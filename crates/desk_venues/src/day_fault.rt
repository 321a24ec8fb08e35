//! Why a day can't be run.

ghost use Rattle.std.specs.Prelude.{◌≡◌};
ghost use Rattle.desk_venues.specs.declared.day_fault.DayFault.TheVariants.{OutOfMemory};
ghost use Rattle.desk_venues.specs.Faults.{run_fault};

use day_log::LogFault;
use journal_folder::JournalRefused;
use session_worker::RunFault;
use std::alloc::{AllocError, AllocFailed};
use thiserror::Error;

/// Why a day can't be run, or its audit fails. All its threads have ended.
#[derive(Debug, PartialEq, Eq, Drop, Error)]
pub enum DayFault {
    /// The logs of the day can't be begun.
    #[error("{0}")]
    NoLogs(LogFault),
    /// The day can't go on from its journals, or begin them.
    #[error("{0}")]
    NoJournal(JournalRefused),
    /// The page can't be served at its address.
    #[error("no page")]
    NoPage,
    /// Lines can't be taken at their address.
    #[error("no lines")]
    NoLines,
    /// No socket for a simulated exchange to listen on can be had.
    #[error("no socket")]
    NoSocket,
    /// The system makes no more threads.
    #[error("no thread")]
    NoThread,
    #[error("out of memory")]
    OutOfMemory,
    /// A worker didn't take the first legs released to its venue.
    #[error("audit A01")]
    MismatchQueue,
    /// The workers' seats don't add up to what the venues have resolved.
    #[error("audit A02")]
    MismatchShares,
    /// The caller's seat doesn't have the shares placed.
    #[error("audit A03")]
    MismatchPlaced,
}

impl From<AllocError> for DayFault {
    ghost from_gives = { λ _ fault. fault ≡ OutOfMemory };

    fn from(_: AllocError) -> DayFault {
        DayFault::OutOfMemory
    }
}

impl<T: Drop> From<AllocFailed<T>> for DayFault {
    ghost from_gives = { λ _ fault. fault ≡ OutOfMemory };

    fn from(_: AllocFailed<T>) -> DayFault {
        DayFault::OutOfMemory
    }
}

impl From<RunFault> for DayFault {
    ghost from_gives = { λ fault given. given ≡ run_fault fault };

    fn from(fault: RunFault) -> DayFault {
        match fault {
            RunFault::OutOfMemory => DayFault::OutOfMemory,
            RunFault::NoThread => DayFault::NoThread,
        }
    }
}
