//! Why a log can't be checked.
ghost use Rattle.std.specs.Prelude.{◌≡◌};
ghost use Rattle.day_check.specs.Fault.{fault_text};
ghost use Rattle.day_check.specs.declared.fault.LogFault.TheVariants.{OutOfMemory, WriteFailed};
ghost use Rattle.day_check.specs.Judge.{line_fault};

use log_text::LineFault;
use std::alloc::AllocError;
use std::error::Error;
use std::fmt;

/// Why a log can't be checked.
#[derive(Debug, Drop)]
pub enum LogFault {
    /// This line of the log, counted from 1, says nothing.
    BadLine { number: u64, fault: LineFault },
    /// The first line of the log names no dialect, and no other is given.
    NoDialect,
    ReadFailed,
    WriteFailed,
    OutOfMemory,
}

/// Why a line says nothing `log_text` tells.
impl fmt::Display for LogFault {
    ghost output = { fault_text };

    fn fmt<W: fmt::Write>(&self, f: &mut fmt::Formatter<W>) -> fmt::Result {
        match self {
            LogFault::BadLine { number, fault } => write!(f, "line {number}: {fault}"),
            LogFault::NoDialect => write!(f, "the log's head names no dialect"),
            LogFault::ReadFailed => write!(f, "read failed"),
            LogFault::WriteFailed => write!(f, "write failed"),
            LogFault::OutOfMemory => write!(f, "out of memory"),
        }
    }
}

impl Error for LogFault {}

impl LogFault {
    /// The fault of a line.
    pub(crate) fn of_line(number: u64, fault: LineFault) -> LogFault
        ensures { result ≡ line_fault number fault }
    {
        match fault {
            LineFault::OutOfMemory => LogFault::OutOfMemory,
            fault => LogFault::BadLine { number, fault },
        }
    }
}

impl From<AllocError> for LogFault {
    ghost from_gives = { λ _ fault. fault ≡ OutOfMemory };

    fn from(_: AllocError) -> LogFault {
        LogFault::OutOfMemory
    }
}

impl From<command_line::WriteFailed> for LogFault {
    ghost from_gives = { λ _ fault. fault ≡ WriteFailed };

    fn from(_: command_line::WriteFailed) -> LogFault {
        LogFault::WriteFailed
    }
}
