//! Why a day's logs can't be begun.

ghost use Rattle.std.specs.Prelude.{◌≡◌, Some};
ghost use Rattle.day_log.specs.Fault.{fault_text};
ghost use Rattle.day_log.specs.declared.fault.LogFault.TheVariants.{OutOfMemory};

use crate::log_file::LogFile;
use std::alloc::{AllocError, AllocFailed};
use std::error::Error;
use std::fmt;

/// Why a day's logs can't be begun. Behind the first two, and `CantLook`, no file and no folder was made.
#[derive(Debug, PartialEq, Eq, Drop)]
pub enum LogFault {
    /// A venue is called `sweeps`, so that its log would be that of the lines.
    NameTaken,
    /// The file is there: nothing is ever written over a log.
    Exists(LogFile),
    /// The system doesn't say whether the file is there.
    CantLook(LogFile),
    /// The folder isn't there and can't be made.
    NoFolder,
    /// The file can't be made, or its first line can't be written.
    CantWrite(LogFile),
    OutOfMemory,
}

/// Its text names the file as it is called in the folder; the folder's name is the caller's to say.
impl fmt::Display for LogFault {
    ghost output = { λ fault. Some (fault_text fault) };

    fn fmt<W: fmt::Write>(&self, f: &mut fmt::Formatter<W>) -> fmt::Result {
        match self {
            LogFault::NameTaken => {
                write!(f, "a venue is called sweeps, as the log of the lines is")
            }
            LogFault::Exists(file) => write!(f, "{file} is there already"),
            LogFault::CantLook(file) => write!(f, "{file} can't be looked up"),
            LogFault::NoFolder => write!(f, "the folder can't be made"),
            LogFault::CantWrite(file) => write!(f, "{file} can't be written"),
            LogFault::OutOfMemory => write!(f, "out of memory"),
        }
    }
}

impl Error for LogFault {}

impl From<AllocError> for LogFault {
    ghost from_gives = { λ _ fault. fault ≡ OutOfMemory };

    fn from(_: AllocError) -> LogFault {
        LogFault::OutOfMemory
    }
}

impl<T: Drop> From<AllocFailed<T>> for LogFault {
    ghost from_gives = { λ _ fault. fault ≡ OutOfMemory };

    fn from(_: AllocFailed<T>) -> LogFault {
        LogFault::OutOfMemory
    }
}
