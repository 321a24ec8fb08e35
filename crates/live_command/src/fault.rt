//! Why `dispatch live` failed.
ghost use Rattle.std.specs.Prelude.{◌≡◌};
ghost use Rattle.live_command.specs.declared.fault.CommandFault.TheVariants.{OutOfMemory, WriteFailed};
ghost use Rattle.live_command.specs.Fault.{IsOfCommandLine, fault_status, day_fault};

use crate::option::LiveOption;
use clap::error::ErrorKind;
use command_line::Fault;
use desk_venues::DayFault;
use std::alloc::AllocError;
use thiserror::Error;

/// Why `dispatch live` failed.
#[derive(Debug, Drop, Error)]
pub enum CommandFault {
    /// The words aren't those of the command line, or ask for help.
    #[error("{0}")]
    CommandLine(clap::Error),
    /// The command line gave this option no value.
    #[error("no value --{0}")]
    NoNumber(LiveOption),
    /// The value of this option is no number within its limits.
    #[error("bad value --{0}")]
    BadNumber(LiveOption),
    #[error("write failed")]
    WriteFailed,
    /// There was no socket to listen on.
    #[error("no socket")]
    NoSocket,
    /// The system made no more threads.
    #[error("no thread")]
    NoThread,
    /// The day ran, and no exchange answered a Logon in it.
    #[error("no exchange answered")]
    NoAnswer,
    #[error("out of memory")]
    OutOfMemory,
    /// A worker didn't take the first legs released to its venue.
    #[error("audit A01")]
    MismatchQueue,
    /// The workers' seats don't add up to what the venues have resolved.
    #[error("audit A02")]
    MismatchShares,
    /// The callers' seats don't add up to the shares placed.
    #[error("audit A03")]
    MismatchPlaced,
}

impl Fault for CommandFault {
    ghost status_of = { fault_status };

    fn status(&self) -> u8 {
        match self {
            CommandFault::CommandLine(_) | CommandFault::NoNumber(_) => 2,
            CommandFault::BadNumber(_) => 3,
            CommandFault::WriteFailed
            | CommandFault::NoSocket
            | CommandFault::NoThread
            | CommandFault::NoAnswer => 4,
            CommandFault::OutOfMemory => 5,
            CommandFault::MismatchQueue
            | CommandFault::MismatchShares
            | CommandFault::MismatchPlaced => 6,
        }
    }

    fn reason(&self) -> Option<&'static str> {
        match self {
            CommandFault::BadNumber(option) => Some(option.wanted()),
            _ => None,
        }
    }

    fn ends_line(&self) -> bool {
        matches!(self, CommandFault::CommandLine(_))
    }
}

impl From<AllocError> for CommandFault {
    ghost from_gives = { λ _ fault. fault ≡ OutOfMemory };

    fn from(_: AllocError) -> CommandFault {
        CommandFault::OutOfMemory
    }
}

impl From<command_line::WriteFailed> for CommandFault {
    ghost from_gives = { λ _ fault. fault ≡ WriteFailed };

    fn from(_: command_line::WriteFailed) -> CommandFault {
        CommandFault::WriteFailed
    }
}

impl From<clap::Error> for CommandFault {
    ghost from_gives = { λ _ fault. IsOfCommandLine fault };

    fn from(error: clap::Error) -> CommandFault {
        match error.kind() {
            ErrorKind::OutOfMemory => CommandFault::OutOfMemory,
            _ => CommandFault::CommandLine(error),
        }
    }
}

impl From<DayFault> for CommandFault {
    ghost from_gives = { λ fault given. given ≡ day_fault fault };

    fn from(fault: DayFault) -> CommandFault {
        match fault {
            DayFault::NoLogs(_) => CommandFault::NoSocket,
            DayFault::NoJournal(_) => CommandFault::NoSocket,
            DayFault::NoPage => CommandFault::NoSocket,
            DayFault::NoLines => CommandFault::NoSocket,
            DayFault::NoSocket => CommandFault::NoSocket,
            DayFault::NoThread => CommandFault::NoThread,
            DayFault::OutOfMemory => CommandFault::OutOfMemory,
            DayFault::MismatchQueue => CommandFault::MismatchQueue,
            DayFault::MismatchShares => CommandFault::MismatchShares,
            DayFault::MismatchPlaced => CommandFault::MismatchPlaced,
        }
    }
}
