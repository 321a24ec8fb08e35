//! Why `dispatch check` failed.
ghost use Rattle.std.specs.Prelude.{◌≡◌, IfOk, IfSome, option_map, string_bytes};
ghost use Rattle.check_command.specs.declared.fault.CommandFault.TheVariants.{OutOfMemory, WriteFailed};
ghost use Rattle.check_command.specs.Fault.{IsNamed, IsOfCommandLine, IsOfLog, fault_status, log_status};
ghost use Rattle.check_command.specs.FaultText.{IsObject, advice_of, fault_text, line_of, log_advice, log_of, text_of};

use clap::error::ErrorKind;
use command_line::Fault;
use day_check::{LogFault, ToldFault, fault_json};
use std::alloc::{AllocError, Global};
use std::error::Error;
use std::fmt;
use std::io::Write;

/// Why `dispatch check` failed.
#[derive(Debug, Drop)]
pub enum CommandFault {
    /// The words aren't those of the command line, or ask for help.
    CommandLine(clap::Error),
    /// The name of the desk isn't one.
    BadDesk,
    /// The log at this path can't be checked.
    OfLog { path: String, fault: LogFault },
    /// Beside the log of a desk's lines a log isn't called after a venue, or two are, or they are too many.
    BadName,
    WriteFailed,
    OutOfMemory,
}

/// What is wrong with the desk's name.
const BAD_DESK: &str = "--desk takes a comp id, 1 to 16 printable characters without spaces";

/// What is wrong with the names of the logs.
const BAD_NAME: &str =
    "beside sweeps.log each log is called after its venue, as NYSE.log, at most 16 and no two alike";

/// What the command line's parser says of its own faults isn't promised.
impl fmt::Display for CommandFault {
    ghost output = { fault_text };

    fn fmt<W: fmt::Write>(&self, f: &mut fmt::Formatter<W>) -> fmt::Result {
        match self {
            CommandFault::CommandLine(fault) => write!(f, "{fault}"),
            CommandFault::BadDesk => f.write_str(BAD_DESK),
            CommandFault::OfLog { path, fault } => write!(f, "{path}: {fault}"),
            CommandFault::BadName => f.write_str(BAD_NAME),
            CommandFault::WriteFailed => write!(f, "write failed"),
            CommandFault::OutOfMemory => write!(f, "out of memory"),
        }
    }
}

impl Error for CommandFault {}

/// What is told in JSON where there is no memory for the object of a fault.
const NO_MEMORY: &[u8] = b"{\"fault\":\"out of memory\"}\n";

/// The exit status that tells the fault of a log.
fn log_status(fault: &LogFault) -> u8
    ensures { result ≡ log_status fault.now }
{
    match fault {
        LogFault::BadLine { .. } | LogFault::NoDialect => 3,
        LogFault::ReadFailed | LogFault::WriteFailed => 4,
        LogFault::OutOfMemory => 5,
    }
}

/// What to do about the fault of a log, where there is something.
fn log_advice(fault: &LogFault) -> Option<&'static str>
    ensures { option_map (λ advice. advice.now) result ≡ log_advice fault.now }
{
    match fault {
        LogFault::BadLine { .. } => {
            Some("give the log as it was written, or name by --from the engine that wrote it")
        }
        LogFault::NoDialect => Some("name the dialect, as --exact plain"),
        _ => None,
    }
}

/// A fault of the log at this path, which it names.
fn named(alloc: Global, path: &str, fault: LogFault) -> CommandFault
    ensures { IsNamed path.now fault result }
{
    match String::from_str(alloc, path) {
        Ok(path) => CommandFault::OfLog { path, fault },
        Err(_) => CommandFault::OutOfMemory,
    }
}

impl CommandFault {
    /// The fault of the log at this path.
    pub(crate) fn of_log(alloc: Global, path: &str, fault: LogFault) -> CommandFault
        ensures { IsOfLog path.now fault result }
    {
        match fault {
            LogFault::BadLine { number, fault } => {
                named(alloc, path, LogFault::BadLine { number, fault })
            }
            LogFault::NoDialect => named(alloc, path, LogFault::NoDialect),
            LogFault::ReadFailed => named(alloc, path, LogFault::ReadFailed),
            LogFault::WriteFailed => CommandFault::WriteFailed,
            LogFault::OutOfMemory => CommandFault::OutOfMemory,
        }
    }
}

/// The log that is at fault, where one is.
fn log_of(fault: &CommandFault) -> Option<&str>
    ensures { option_map (λ log. log.now) result ≡ log_of fault.now }
{
    match fault {
        CommandFault::OfLog { path, .. } => Some(path.as_str()),
        _ => None,
    }
}

/// The line that is at fault, where one is.
fn line_of(fault: &CommandFault) -> Option<u64>
    ensures { result ≡ line_of fault.now }
{
    match fault {
        CommandFault::OfLog {
            fault: LogFault::BadLine { number, .. },
            ..
        } => Some(*number),
        _ => None,
    }
}

/// What is wrong there.
fn text_of(alloc: Global, fault: &CommandFault) -> Result<String, AllocError>
    ensures { IfOk result (λ text. IfSome (text_of fault.now) (λ said. string_bytes text ≡ said)) }
{
    match fault {
        CommandFault::OfLog {
            fault: LogFault::BadLine { fault, .. },
            ..
        } => format!(in alloc; "{fault}"),
        CommandFault::OfLog { fault, .. } => format!(in alloc; "{fault}"),
        fault => format!(in alloc; "{fault}"),
    }
}

/// What to do about a fault, where there is something.
fn advice_of(fault: &CommandFault) -> Option<&'static str>
    ensures { option_map (λ advice. advice.now) result ≡ advice_of fault.now }
{
    match fault {
        CommandFault::OfLog { fault, .. } => log_advice(fault),
        _ => None,
    }
}

/// A fault as an object of JSON, in a line.
fn json_of(alloc: Global, fault: &CommandFault) -> Result<Vec<u8>, AllocError>
    ensures { IfOk result (λ line. IsObject fault.now line.items) }
{
    let text = text_of(alloc, fault)?;
    let told = ToldFault {
        log: log_of(fault),
        line: line_of(fault),
        text: text.as_str(),
        advice: advice_of(fault),
    };
    fault_json(alloc, &told)
}

/// Writes a fault to `err` as an object of JSON, in a line, and gives its exit status, which also tells it where `err`
/// can't be written.
pub(crate) fn tell_json<E: Write>(alloc: Global, fault: &CommandFault, err: &mut E) -> u8
    ensures { result ≡ fault_status fault.now }
{
    let _ = match json_of(alloc, fault) {
        Ok(line) => err.write_all(&line),
        Err(_) => err.write_all(NO_MEMORY),
    };
    fault.status()
}

impl Fault for CommandFault {
    ghost status_of = { fault_status };

    fn status(&self) -> u8 {
        match self {
            CommandFault::CommandLine(_) | CommandFault::BadDesk | CommandFault::BadName => 2,
            CommandFault::OfLog { fault, .. } => log_status(fault),
            CommandFault::WriteFailed => 4,
            CommandFault::OutOfMemory => 5,
        }
    }

    fn reason(&self) -> Option<&'static str> {
        advice_of(self)
    }

    fn ends_line(&self) -> bool {
        matches!(self, CommandFault::CommandLine(_))
    }
}

impl From<AllocError> for CommandFault {
    ghost from_gives = { λ _ fault. fault ≡ OutOfMemory };

    fn from(_: AllocError) -> CommandFault {
        CommandFault::OutOfMemory
    }
}

impl From<command_line::WriteFailed> for CommandFault {
    ghost from_gives = { λ _ fault. fault ≡ WriteFailed };

    fn from(_: command_line::WriteFailed) -> CommandFault {
        CommandFault::WriteFailed
    }
}

impl From<clap::Error> for CommandFault {
    ghost from_gives = { λ _ fault. IsOfCommandLine fault };

    fn from(error: clap::Error) -> CommandFault {
        match error.kind() {
            ErrorKind::OutOfMemory => CommandFault::OutOfMemory,
            _ => CommandFault::CommandLine(error),
        }
    }
}
