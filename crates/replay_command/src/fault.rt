//! Why `dispatch replay` failed.
ghost use Rattle.std.specs.Prelude.{◌≡◌};
ghost use Rattle.replay_command.specs.declared.fault.CommandFault.TheVariants.{OutOfMemory, WriteFailed};
ghost use Rattle.replay_command.specs.Fault.{IsOfCommandLine, fault_status};

use clap::error::ErrorKind;
use command_line::Fault;
use std::alloc::AllocError;
use thiserror::Error;

/// Why `dispatch replay` failed.
#[derive(Debug, Drop, Error)]
pub enum CommandFault {
    /// The words aren't those of the command line, or ask for help.
    #[error("{0}")]
    CommandLine(clap::Error),
    /// This line of the script isn't of its form, counted from 1; or there is no first line, and this is one above the
    /// last.
    #[error("line {0}")]
    BadLine(u64),
    /// The crash of this line loses what can't be lost, and why not.
    #[error("line {line}: {why}")]
    Impossible { line: u64, why: String },
    /// The file that the words name can't be opened.
    #[error("read failed")]
    NoFile,
    /// The file of the picture is there already.
    #[error("write failed: {0} is there already")]
    PictureIsThere(String),
    /// The file of the picture can't be made, or not be written.
    #[error("write failed: {0} can't be written")]
    PictureFailed(String),
    #[error("read failed")]
    ReadFailed,
    #[error("write failed")]
    WriteFailed,
    #[error("out of memory")]
    OutOfMemory,
}

impl Fault for CommandFault {
    ghost status_of = { fault_status };

    fn status(&self) -> u8 {
        match self {
            CommandFault::CommandLine(_) => 2,
            CommandFault::BadLine(_) | CommandFault::Impossible { .. } => 3,
            CommandFault::NoFile | CommandFault::ReadFailed | CommandFault::WriteFailed => 4,
            CommandFault::PictureIsThere(_) | CommandFault::PictureFailed(_) => 4,
            CommandFault::OutOfMemory => 5,
        }
    }

    fn reason(&self) -> Option<&'static str> {
        match self {
            CommandFault::NoFile => Some("the file can't be opened"),
            _ => None,
        }
    }

    fn ends_line(&self) -> bool {
        matches!(self, CommandFault::CommandLine(_))
    }
}

impl From<AllocError> for CommandFault {
    ghost from_gives = { λ _ fault. fault ≡ OutOfMemory };

    fn from(_: AllocError) -> CommandFault {
        CommandFault::OutOfMemory
    }
}

impl From<command_line::WriteFailed> for CommandFault {
    ghost from_gives = { λ _ fault. fault ≡ WriteFailed };

    fn from(_: command_line::WriteFailed) -> CommandFault {
        CommandFault::WriteFailed
    }
}

impl From<clap::Error> for CommandFault {
    ghost from_gives = { λ _ fault. IsOfCommandLine fault };

    fn from(error: clap::Error) -> CommandFault {
        match error.kind() {
            ErrorKind::OutOfMemory => CommandFault::OutOfMemory,
            _ => CommandFault::CommandLine(error),
        }
    }
}
