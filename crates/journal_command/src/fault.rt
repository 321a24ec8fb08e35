//! Why `dispatch journal` failed.

ghost use Rattle.std.specs.Prelude.{◌≡◌};
ghost use Rattle.journal_command.specs.declared.fault.CommandFault.TheVariants.{OutOfMemory, WriteFailed};
ghost use Rattle.journal_command.specs.Fault.{IsOfFolder, IsOfLine, IsOfWords, fault_status};

use clap::error::ErrorKind;
use command_line::Fault;
use journal_folder::FolderFault;
use journal_words::WordsFault;
use std::alloc::{AllocError, Global};
use thiserror::Error;

/// Why `dispatch journal` failed.
#[derive(Debug, Drop, Error)]
pub enum CommandFault {
    /// The words aren't those of the command line, or ask for help.
    #[error("{0}")]
    CommandLine(clap::Error),
    /// The command line names no folder.
    #[error("no value DAY")]
    NoFolder,
    /// There is no journal in the folder.
    #[error("no journal is in the folder")]
    NoJournal,
    /// No journal of this name is in the folder.
    #[error("no journal {name} is in the folder")]
    NoVenue {
        name: String,
    },
    /// No dispatcher goes on with the journal of this name.
    #[error("journal {name}: {why}")]
    Broken {
        name: String,
        why: FolderFault,
    },
    /// Its heads aren't those of a venue that this program knows.
    #[error("journal {name}: its head names no venue that this program knows")]
    OtherHead {
        name: String,
    },
    /// A line of it says nothing.
    #[error("journal {name}: line {number}: {why}")]
    BadLine {
        name: String,
        number: usize,
        why: WordsFault,
    },
    /// What is at this path can't be read.
    #[error("{path}: read failed")]
    ReadFailed {
        path: String,
    },
    #[error("write failed")]
    WriteFailed,
    /// Some of a log may be printed already.
    #[error("out of memory within the log")]
    LogWantsMemory,
    #[error("out of memory")]
    OutOfMemory,
}

impl CommandFault {
    /// What is at this path can't be read.
    pub(crate) fn read_failed(alloc: Global, path: &str) -> CommandFault
        ensures { IsOfFolder result }
    {
        match String::from_str(alloc, path) {
            Ok(path) => CommandFault::ReadFailed { path },
            Err(_) => CommandFault::OutOfMemory,
        }
    }

    /// No journal of this name is in the folder.
    pub(crate) fn no_venue(alloc: Global, name: &str) -> CommandFault
        ensures { IsOfFolder result }
    {
        match String::from_str(alloc, name) {
            Ok(name) => CommandFault::NoVenue { name },
            Err(_) => CommandFault::OutOfMemory,
        }
    }

    /// No dispatcher goes on with the journal of this name.
    pub(crate) fn broken(alloc: Global, name: &str, why: FolderFault) -> CommandFault
        ensures { IsOfFolder result }
    {
        match String::from_str(alloc, name) {
            Ok(name) => CommandFault::Broken { name, why },
            Err(_) => CommandFault::OutOfMemory,
        }
    }

    /// The heads of the journal of this name aren't those of a venue that this program knows.
    pub(crate) fn other_head(alloc: Global, name: &str) -> CommandFault
        ensures { IsOfFolder result }
    {
        match String::from_str(alloc, name) {
            Ok(name) => CommandFault::OtherHead { name },
            Err(_) => CommandFault::OutOfMemory,
        }
    }

    /// The line of this number of the journal of this name says nothing.
    pub(crate) fn bad_line(
        alloc: Global,
        name: &str,
        number: usize,
        why: WordsFault,
    ) -> CommandFault
        ensures { IsOfLine number why result }
    {
        match String::from_str(alloc, name) {
            Ok(name) => CommandFault::BadLine { name, number, why },
            Err(_) => CommandFault::LogWantsMemory,
        }
    }
}

impl Fault for CommandFault {
    ghost status_of = { fault_status };

    fn status(&self) -> u8 {
        match self {
            CommandFault::CommandLine(_) | CommandFault::NoFolder => 2,
            CommandFault::NoJournal | CommandFault::NoVenue { .. } => 3,
            CommandFault::OtherHead { .. } | CommandFault::BadLine { .. } => 3,
            CommandFault::Broken { .. } => 8,
            CommandFault::ReadFailed { .. } | CommandFault::WriteFailed => 4,
            CommandFault::OutOfMemory | CommandFault::LogWantsMemory => 5,
        }
    }

    fn reason(&self) -> Option<&'static str> {
        match self {
            CommandFault::NoJournal => Some("its files are called after it, as NYSE.1.journal"),
            _ => None,
        }
    }

    fn ends_line(&self) -> bool {
        matches!(self, CommandFault::CommandLine(_))
    }
}

impl From<AllocError> for CommandFault {
    ghost from_gives = { λ _ fault. fault ≡ OutOfMemory };

    fn from(_: AllocError) -> CommandFault {
        CommandFault::OutOfMemory
    }
}

impl From<command_line::WriteFailed> for CommandFault {
    ghost from_gives = { λ _ fault. fault ≡ WriteFailed };

    fn from(_: command_line::WriteFailed) -> CommandFault {
        CommandFault::WriteFailed
    }
}

impl From<clap::Error> for CommandFault {
    ghost from_gives = { λ _ fault. IsOfWords fault };

    fn from(error: clap::Error) -> CommandFault {
        match error.kind() {
            ErrorKind::OutOfMemory => CommandFault::OutOfMemory,
            _ => CommandFault::CommandLine(error),
        }
    }
}
