//! Why `dispatch run` failed.
ghost use Rattle.std.specs.Prelude.{◌≡◌, ◌↔◌, IsTrue};
ghost use Rattle.run_file.specs.declared.fault.CommandFault.TheVariants.{OutOfMemory, WriteFailed};
ghost use Rattle.run_file.specs.Fault.{IsOfCommandLine, fault_status, folder_status, journal_status, log_status};
ghost use Rattle.run_file.specs.Fault.{LacksMemory, day_fault, input_fault, secret_status, talk_fault};

use clap::error::ErrorKind;
use command_line::{Fault, InputFault};
use day_log::LogFault;
use desk_config::ConfigFault;
use desk_floor::TalkFault;
use desk_venues::DayFault;
use journal_folder::{FolderFault, JournalRefused, RestartFault};
use secret_file::SecretFault;
use std::alloc::AllocError;
use std::io;
use thiserror::Error;

/// Why `dispatch run` failed.
#[derive(Debug, Drop, Error)]
pub enum CommandFault {
    /// The words aren't those of the command line, or ask for help.
    #[error("{0}")]
    CommandLine(clap::Error),
    /// The command line gave no file.
    #[error("no file")]
    NoName,
    /// The value of `--patience` is no number within its limits.
    #[error("bad value --patience")]
    BadPatience,
    /// The value of `--refs` is another than `required`.
    #[error("bad value --refs")]
    BadRefs,
    /// The file can't be opened.
    #[error("{0}: it can't be opened")]
    NoFile(String),
    /// The file isn't UTF-8.
    #[error("{0}: it isn't UTF-8 text")]
    NotText(String),
    /// What is wrong with the file.
    #[error("{name}: {fault}")]
    BadFile {
        name: String,
        fault: ConfigFault,
    },
    /// The file of a user's token gives none.
    #[error("user {user}: token_file {file}: {fault}")]
    NoToken {
        user: String,
        file: String,
        fault: SecretFault,
    },
    /// Another user has the token of this one.
    #[error("user {0}: another user has the same token")]
    SameToken(String),
    /// The password of a venue can't be read from its file.
    #[error("the password of {venue}: {file}: {why}")]
    NoPassword {
        venue: String,
        file: String,
        why: SecretFault,
    },
    /// The logs of the day can't be begun in their folder.
    #[error("log: {0}")]
    NoLogs(LogFault),
    /// The day can't go on from its journals, or begin them.
    #[error("journal: {0}")]
    NoJournal(JournalRefused),
    /// The page can't be served where the file asks for it.
    #[error("page: it can't be served there")]
    NoPage,
    /// Lines can't be taken where the file asks for it.
    #[error("listen or socket: lines can't be taken there")]
    NoLines,
    #[error("read failed")]
    ReadFailed,
    #[error("write failed")]
    WriteFailed,
    /// There was no socket to listen on.
    #[error("no socket")]
    NoSocket,
    /// The system made no more threads.
    #[error("no thread")]
    NoThread,
    #[error("out of memory")]
    OutOfMemory,
    /// A worker didn't take the first legs released to its venue.
    #[error("audit A01")]
    MismatchQueue,
    /// The workers' seats don't add up to what the venues have resolved.
    #[error("audit A02")]
    MismatchShares,
    /// The caller's seat doesn't have the shares placed.
    #[error("audit A03")]
    MismatchPlaced,
    /// Legs stay in doubt, or a session was given up.
    #[error("the day was given up")]
    GivenUp,
    /// The book didn't take all that exchanges said.
    #[error("not all reports were booked")]
    Unbooked,
}

/// The status that tells why the logs of a day can't be begun: 3 where the file asks for what can't be, 4 where the
/// system refuses it.
fn log_status(fault: &LogFault) -> u8
    ensures { result ≡ log_status fault.now }
{
    match fault {
        LogFault::NameTaken | LogFault::Exists(_) => 3,
        LogFault::CantLook(_) | LogFault::NoFolder | LogFault::CantWrite(_) => 4,
        LogFault::OutOfMemory => 5,
    }
}

/// The status that tells why a file gives no secret: 3 where it has to be another one, 4 where it can't be read.
fn secret_status(fault: SecretFault) -> u8
    ensures { result ≡ secret_status fault }
{
    match fault {
        SecretFault::OpenToOthers | SecretFault::BadLine { .. } => 3,
        SecretFault::NoFile | SecretFault::ReadFailed => 4,
        SecretFault::OutOfMemory => 5,
    }
}

/// Whether a file gives no secret for lack of memory.
pub(crate) fn lacks_memory(fault: SecretFault) -> bool
    ensures { IsTrue result ↔ LacksMemory fault }
{
    match fault {
        SecretFault::OutOfMemory => true,
        SecretFault::NoFile | SecretFault::ReadFailed => false,
        SecretFault::OpenToOthers | SecretFault::BadLine { .. } => false,
    }
}

/// What is wanted where the logs of a day can't be begun, if there is more to say.
fn log_reason(fault: &LogFault) -> Option<&'static str> {
    match fault {
        LogFault::NameTaken => Some("give the venue another name"),
        LogFault::Exists(_) => Some(
            "no log is written over: name another folder, or move the file",
        ),
        _ => None,
    }
}

/// The status that tells why a folder of journals can't be used: 3 where what is in it forbids it, 4 where the system
/// or another dispatcher does.
fn folder_status(fault: FolderFault) -> u8
    ensures { result ≡ folder_status fault }
{
    match fault {
        FolderFault::Damaged { .. }
        | FolderFault::Gone { .. }
        | FolderFault::NoHead { .. }
        | FolderFault::LinesGone { .. }
        | FolderFault::OtherWords { .. } => 3,
        FolderFault::NoFolder
        | FolderFault::Taken
        | FolderFault::CantRead { .. }
        | FolderFault::CantWrite { .. } => 4,
        FolderFault::OutOfMemory => 5,
    }
}

/// The status that tells why a day can't go on from its journals.
fn journal_status(fault: &RestartFault) -> u8
    ensures { result ≡ journal_status fault.now }
{
    match fault {
        RestartFault::Folder(fault) => folder_status(*fault),
        RestartFault::Desk(fault) => folder_status(*fault),
        RestartFault::Venue(_, fault) => folder_status(*fault),
        RestartFault::Ended(_) => 3,
        RestartFault::DeskLine(_) => 3,
        RestartFault::VenueLine(_, _) => 3,
        RestartFault::OutOfMemory => 5,
    }
}

/// What is wanted where a folder of journals can't be used, if there is more to say.
fn folder_reason(fault: FolderFault) -> Option<&'static str> {
    match fault {
        FolderFault::NoFolder => Some(
            "a file may be in its place, or this user may not write there",
        ),
        FolderFault::Taken => Some("one dispatcher at a time runs a day"),
        FolderFault::OtherWords { .. } => Some(
            "the day began at another date, or with other comp ids, words or terms",
        ),
        FolderFault::Damaged { .. }
        | FolderFault::Gone { .. }
        | FolderFault::NoHead { .. }
        | FolderFault::LinesGone { .. } => Some(
            "take the folder from a copy: cut there, it lacks what went out",
        ),
        FolderFault::CantRead { .. } | FolderFault::CantWrite { .. } => Some(
            "there may be no room, or this user has no right to it",
        ),
        FolderFault::OutOfMemory => None,
    }
}

/// What is wanted where a day can't go on from its journals, if there is more to say.
fn journal_reason(fault: &RestartFault) -> Option<&'static str> {
    match fault {
        RestartFault::Folder(fault) => folder_reason(*fault),
        RestartFault::Desk(fault) => folder_reason(*fault),
        RestartFault::Venue(_, fault) => folder_reason(*fault),
        RestartFault::Ended(_) => Some("a day that ended isn't gone on with: name another folder"),
        RestartFault::DeskLine(_) => Some("was a venue of the desk's file renamed, or taken away?"),
        RestartFault::VenueLine(_, _) => Some("was a venue of the desk's file changed?"),
        RestartFault::OutOfMemory => None,
    }
}

impl Fault for CommandFault {
    ghost status_of = { fault_status };

    fn status(&self) -> u8 {
        match self {
            CommandFault::CommandLine(_) | CommandFault::NoName => 2,
            CommandFault::BadPatience
            | CommandFault::BadRefs
            | CommandFault::NotText(_)
            | CommandFault::BadFile { .. }
            | CommandFault::SameToken(_) => 3,
            CommandFault::NoToken { fault, .. } => secret_status(*fault),
            CommandFault::NoFile(_)
            | CommandFault::NoPassword { .. }
            | CommandFault::NoPage
            | CommandFault::NoLines
            | CommandFault::ReadFailed
            | CommandFault::WriteFailed
            | CommandFault::NoSocket
            | CommandFault::NoThread => 4,
            CommandFault::NoLogs(fault) => log_status(fault),
            CommandFault::NoJournal(refused) => journal_status(&refused.fault),
            CommandFault::OutOfMemory => 5,
            CommandFault::MismatchQueue
            | CommandFault::MismatchShares
            | CommandFault::MismatchPlaced => 6,
            CommandFault::GivenUp => 7,
            CommandFault::Unbooked => 9,
        }
    }

    fn reason(&self) -> Option<&'static str> {
        match self {
            CommandFault::BadPatience => Some("a whole number from 0 to 86400 is wanted"),
            CommandFault::BadRefs => Some("required is its only value"),
            CommandFault::NoPage => Some(
                "another program may have the address, or it isn't this machine's",
            ),
            CommandFault::NoLines => Some(
                "another program or file may have the address or the path, or the folder may not be written to",
            ),
            CommandFault::NoLogs(fault) => log_reason(fault),
            CommandFault::NoJournal(refused) => journal_reason(&refused.fault),
            CommandFault::GivenUp => Some(
                "a session didn't log out in time, or legs stay in doubt",
            ),
            CommandFault::Unbooked => Some(
                "the lines that begin with unbooked have them: ask the venues what stands",
            ),
            _ => None,
        }
    }

    fn ends_line(&self) -> bool {
        matches!(self, CommandFault::CommandLine(_))
    }
}

impl From<AllocError> for CommandFault {
    ghost from_gives = { λ _ fault. fault ≡ OutOfMemory };

    fn from(_: AllocError) -> CommandFault {
        CommandFault::OutOfMemory
    }
}

impl From<io::Error> for CommandFault {
    ghost from_gives = { λ _ fault. fault ≡ OutOfMemory };

    fn from(_: io::Error) -> CommandFault {
        CommandFault::OutOfMemory
    }
}

impl From<command_line::WriteFailed> for CommandFault {
    ghost from_gives = { λ _ fault. fault ≡ WriteFailed };

    fn from(_: command_line::WriteFailed) -> CommandFault {
        CommandFault::WriteFailed
    }
}

impl From<InputFault> for CommandFault {
    ghost from_gives = { λ fault given. given ≡ input_fault fault };

    fn from(fault: InputFault) -> CommandFault {
        match fault {
            InputFault::ReadFailed => CommandFault::ReadFailed,
            InputFault::OutOfMemory => CommandFault::OutOfMemory,
        }
    }
}

impl From<TalkFault> for CommandFault {
    ghost from_gives = { λ fault given. given ≡ talk_fault fault };

    fn from(fault: TalkFault) -> CommandFault {
        match fault {
            TalkFault::ReadFailed => CommandFault::ReadFailed,
            TalkFault::WriteFailed => CommandFault::WriteFailed,
            TalkFault::OutOfMemory => CommandFault::OutOfMemory,
        }
    }
}

impl From<clap::Error> for CommandFault {
    ghost from_gives = { λ _ fault. IsOfCommandLine fault };

    fn from(error: clap::Error) -> CommandFault {
        match error.kind() {
            ErrorKind::OutOfMemory => CommandFault::OutOfMemory,
            _ => CommandFault::CommandLine(error),
        }
    }
}

impl From<DayFault> for CommandFault {
    ghost from_gives = { λ fault given. given ≡ day_fault fault };

    fn from(fault: DayFault) -> CommandFault {
        match fault {
            DayFault::NoLogs(fault) => CommandFault::NoLogs(fault),
            DayFault::NoJournal(refused) => CommandFault::NoJournal(refused),
            DayFault::NoPage => CommandFault::NoPage,
            DayFault::NoLines => CommandFault::NoLines,
            DayFault::NoSocket => CommandFault::NoSocket,
            DayFault::NoThread => CommandFault::NoThread,
            DayFault::OutOfMemory => CommandFault::OutOfMemory,
            DayFault::MismatchQueue => CommandFault::MismatchQueue,
            DayFault::MismatchShares => CommandFault::MismatchShares,
            DayFault::MismatchPlaced => CommandFault::MismatchPlaced,
        }
    }
}
