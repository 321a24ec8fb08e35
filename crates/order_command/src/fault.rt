//! Why `dispatch order` failed.
ghost use Rattle.std.specs.Prelude.{◌≡◌};
ghost use Rattle.order_command.specs.declared.fault.CommandFault.TheVariants.{OutOfMemory, WriteFailed};
ghost use Rattle.order_command.specs.Fault.{IsOfCommandLine, fault_status, frame_fault, input_fault};

use crate::option::OrderOption;
use crate::order_fault::OrderFault;
use clap::error::ErrorKind;
use command_line::{Fault, InputFault};
use std::alloc::AllocError;
use thiserror::Error;

/// Why `dispatch order` failed.
#[derive(Debug, Drop, Error)]
pub enum CommandFault {
    /// The words aren't those of the command line, or ask for help.
    #[error("{0}")]
    CommandLine(clap::Error),
    /// The command line gave this option no value.
    #[error("no value --{0}")]
    NoValue(OrderOption),
    /// The value of this option isn't of its form or within its limits.
    #[error("bad value --{0}")]
    BadValue(OrderOption),
    /// The input has no frame of an order in front.
    #[error("{0}")]
    BadFrame(OrderFault),
    #[error("read failed")]
    ReadFailed,
    #[error("write failed")]
    WriteFailed,
    #[error("out of memory")]
    OutOfMemory,
}

impl Fault for CommandFault {
    ghost status_of = { fault_status };

    fn status(&self) -> u8 {
        match self {
            CommandFault::CommandLine(_) | CommandFault::NoValue(_) => 2,
            CommandFault::BadValue(_) | CommandFault::BadFrame(_) => 3,
            CommandFault::ReadFailed | CommandFault::WriteFailed => 4,
            CommandFault::OutOfMemory => 5,
        }
    }

    fn reason(&self) -> Option<&'static str> {
        match self {
            CommandFault::BadValue(option) => Some(option.wanted()),
            CommandFault::BadFrame(fault) => Some(fault.reason()),
            _ => None,
        }
    }

    fn ends_line(&self) -> bool {
        matches!(self, CommandFault::CommandLine(_))
    }
}

impl From<AllocError> for CommandFault {
    ghost from_gives = { λ _ fault. fault ≡ OutOfMemory };

    fn from(_: AllocError) -> CommandFault {
        CommandFault::OutOfMemory
    }
}

impl From<command_line::WriteFailed> for CommandFault {
    ghost from_gives = { λ _ fault. fault ≡ WriteFailed };

    fn from(_: command_line::WriteFailed) -> CommandFault {
        CommandFault::WriteFailed
    }
}

impl From<OrderFault> for CommandFault {
    ghost from_gives = { λ fault given. given ≡ frame_fault fault };

    fn from(fault: OrderFault) -> CommandFault {
        match fault {
            OrderFault::OutOfMemory => CommandFault::OutOfMemory,
            _ => CommandFault::BadFrame(fault),
        }
    }
}

impl From<InputFault> for CommandFault {
    ghost from_gives = { λ fault given. given ≡ input_fault fault };

    fn from(fault: InputFault) -> CommandFault {
        match fault {
            InputFault::ReadFailed => CommandFault::ReadFailed,
            InputFault::OutOfMemory => CommandFault::OutOfMemory,
        }
    }
}

impl From<clap::Error> for CommandFault {
    ghost from_gives = { λ _ fault. IsOfCommandLine fault };

    fn from(error: clap::Error) -> CommandFault {
        match error.kind() {
            ErrorKind::OutOfMemory => CommandFault::OutOfMemory,
            _ => CommandFault::CommandLine(error),
        }
    }
}
