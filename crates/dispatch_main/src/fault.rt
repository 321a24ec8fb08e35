//! Why the program ran no command.
ghost use Rattle.std.specs.Prelude.{◌≡◌};
ghost use Rattle.dispatch_main.specs.declared.fault.ProgramFault.TheVariants.{OutOfMemory, WriteFailed};
ghost use Rattle.dispatch_main.specs.Fault.{fault_status};

use command_line::Fault;
use std::alloc::AllocError;
use thiserror::Error;

/// Why the program ran no command.
#[derive(Debug, Drop, Error)]
pub enum ProgramFault {
    /// The first word is no command: the help that lists them.
    #[error("expected a command\n\n{0}")]
    NoCommand(String),
    /// The words aren't those of the command line, or ask for help.
    #[error("{0}")]
    CommandLine(clap::Error),
    /// The words of the command line can't be had.
    #[error("read failed")]
    ReadFailed,
    /// A word of the command line isn't UTF-8.
    #[error("read failed")]
    NotText,
    /// The version can't be written.
    #[error("write failed")]
    WriteFailed,
    #[error("out of memory")]
    OutOfMemory,
}

impl Fault for ProgramFault {
    ghost status_of = { fault_status };

    fn status(&self) -> u8 {
        match self {
            ProgramFault::NoCommand(_) | ProgramFault::CommandLine(_) => 2,
            ProgramFault::ReadFailed | ProgramFault::NotText | ProgramFault::WriteFailed => 4,
            ProgramFault::OutOfMemory => 5,
        }
    }

    fn reason(&self) -> Option<&'static str> {
        match self {
            ProgramFault::NotText => Some("a word of the command line isn't UTF-8"),
            _ => None,
        }
    }

    fn ends_line(&self) -> bool {
        matches!(
            self,
            ProgramFault::NoCommand(_) | ProgramFault::CommandLine(_)
        )
    }
}

impl From<AllocError> for ProgramFault {
    ghost from_gives = { λ _ fault. fault ≡ OutOfMemory };

    fn from(_: AllocError) -> ProgramFault {
        ProgramFault::OutOfMemory
    }
}

impl From<command_line::WriteFailed> for ProgramFault {
    ghost from_gives = { λ _ fault. fault ≡ WriteFailed };

    fn from(_: command_line::WriteFailed) -> ProgramFault {
        ProgramFault::WriteFailed
    }
}
