//! Why `dispatch exchange` failed.
ghost use Rattle.std.specs.Prelude.{◌≡◌};
ghost use Rattle.exchange_command.specs.declared.fault.CommandFault.TheVariants.{OutOfMemory, WriteFailed};
ghost use Rattle.exchange_command.specs.Fault.{IsOfCommandLine, fault_status};

use crate::option::ExchangeOption;
use clap::error::ErrorKind;
use command_line::Fault;
use std::alloc::AllocError;
use thiserror::Error;

/// Why `dispatch exchange` failed.
#[derive(Debug, Drop, Error)]
pub enum CommandFault {
    /// The words aren't those of the command line, or ask for help.
    #[error("{0}")]
    CommandLine(clap::Error),
    /// The command line gave this option no value.
    #[error("no value --{0}")]
    NoValue(ExchangeOption),
    /// The value of this option isn't of its form or within its limits.
    #[error("bad value --{0}")]
    BadValue(ExchangeOption),
    /// The port is taken, or isn't given to this user.
    #[error("no socket")]
    NoSocket,
    /// The system gives no client any more.
    #[error("accept failed")]
    AcceptFailed,
    #[error("write failed")]
    WriteFailed,
    #[error("out of memory")]
    OutOfMemory,
}

impl Fault for CommandFault {
    ghost status_of = { fault_status };

    fn status(&self) -> u8 {
        match self {
            CommandFault::CommandLine(_) | CommandFault::NoValue(_) => 2,
            CommandFault::BadValue(_) => 3,
            CommandFault::NoSocket | CommandFault::AcceptFailed | CommandFault::WriteFailed => 4,
            CommandFault::OutOfMemory => 5,
        }
    }

    fn reason(&self) -> Option<&'static str> {
        match self {
            CommandFault::BadValue(option) => Some(option.wanted()),
            CommandFault::NoSocket => Some("the port is taken, or not allowed"),
            _ => None,
        }
    }

    fn ends_line(&self) -> bool {
        matches!(self, CommandFault::CommandLine(_))
    }
}

impl From<AllocError> for CommandFault {
    ghost from_gives = { λ _ fault. fault ≡ OutOfMemory };

    fn from(_: AllocError) -> CommandFault {
        CommandFault::OutOfMemory
    }
}

impl From<command_line::WriteFailed> for CommandFault {
    ghost from_gives = { λ _ fault. fault ≡ WriteFailed };

    fn from(_: command_line::WriteFailed) -> CommandFault {
        CommandFault::WriteFailed
    }
}

impl From<clap::Error> for CommandFault {
    ghost from_gives = { λ _ fault. IsOfCommandLine fault };

    fn from(error: clap::Error) -> CommandFault {
        match error.kind() {
            ErrorKind::OutOfMemory => CommandFault::OutOfMemory,
            _ => CommandFault::CommandLine(error),
        }
    }
}
