//! Why a log can't be printed.

ghost use Rattle.std.specs.Prelude.{◌≡◌};
ghost use Rattle.journal_log.specs.declared.fault.LogFault.TheVariants.{OutOfMemory, WriteFailed};

use journal_words::WordsFault;
use std::alloc::AllocError;
use thiserror::Error;

/// Why the log of a journal ends.
#[derive(Clone, Copy, Debug, PartialEq, Eq, Error)]
pub enum LogFault {
    /// This line, of which the first has the number 1, says nothing.
    #[error("line {number}: {why}")]
    Line { number: usize, why: WordsFault },
    #[error("write failed")]
    WriteFailed,
    #[error("out of memory")]
    OutOfMemory,
}

impl From<AllocError> for LogFault {
    ghost from_gives = { λ _ fault. fault ≡ OutOfMemory };

    fn from(_: AllocError) -> LogFault {
        LogFault::OutOfMemory
    }
}

impl From<command_line::WriteFailed> for LogFault {
    ghost from_gives = { λ _ fault. fault ≡ WriteFailed };

    fn from(_: command_line::WriteFailed) -> LogFault {
        LogFault::WriteFailed
    }
}
