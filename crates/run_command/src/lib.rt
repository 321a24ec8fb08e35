//! `dispatch run`: the day of a desk's file runs, against real exchanges and simulated ones.
//!
//! Promises:
//! - The exit status is 0, or that of the fault (`run_run`). A fault of the words, of the file or of a password prints
//!   nothing. At 0 a file's bytes spell a configuration, and either what it says is printed (`check_text`), or a day of
//!   this configuration was audited and is told: one that began new where no journal is kept (`IsToldDay`), and one
//!   that may have had lives before where one is (`IsToldOver`). Where the file asks for a journal, each worker tells
//!   one (`IsToldKept`). Of that day no worker gave its session up or left a leg in doubt, and of no venue is a report
//!   on the audited book's list of what it didn't take (`IsWhole`). The day's text is printed last (`EndsWell`). A day
//!   that leaves such things open is audited, told and printed too (`EndsOpen`). Which bytes a file gives, that a fault
//!   of the input is told, and what the output holds when the day is over, no contract says.
//! - What is printed behind a day is exactly the stated text of what became of it (`day_text`, or `json_text` with
//!   `--json`).
//! - The folder of the logs is that which the file names, from the file's own folder on (`log_folder`, private). So are
//!   that of the Unix socket (`socket_path`, private) and that of the journals, with the day's date where the file has
//!   `%Y-%m-%d` (`journal_folder`, private). Which day it is no contract says.
//! - That `--check` dials nothing, and that a day runs as the command line asks, is only tested.
//!
//! See `docs/run.md`.
#![tactic(auto)]

ghost use Rattle.std.specs.Prelude.{◌≡◌, None, true, length, is_some, option_map, string_bytes, IfErr, IfOk, OnOk};
ghost use Rattle.desk_config.specs.Apart.{AreVenues};
ghost use Rattle.run_command.specs.Ending.{end_text, PrintsDay, PrintsWholeDay};
ghost use Rattle.run_command.specs.Running.{EndsRun, ExitsSo, IsOfDay};
ghost use Rattle.run_file.specs.Fault.{IfOpen};
ghost use Rattle.run_file.specs.Folder.{folder_of, journal_at, journal_folder};

mod end_json;
mod text;

use command_line::{finish, print};
use config_check::check_text;
use desk_config::{Day, DeskConfig};
use desk_day::DeskDay;
use desk_run::{DayOptions, JournalAt, run_day};
use desk_talk::DeskInput;
use dressed_link::Secret;
pub use end_json::json_text;
use json_lines::Form;
use run_file::{
    CommandFault, folder_of, read_file, read_options, read_passwords, read_tokens, today,
};
use std::alloc::{AllocError, Global};
use std::convert::AsStr;
use std::fs::{File, Files};
use std::io::{Read, Write};
use std::net::{Net, TcpListener, TcpStream};
use std::os::fd::AsRawFd;
use std::sync::Wait;
use std::thread::Threads;
use std::time::Clock;
pub use text::day_text;

/// Runs `dispatch run` on its words, of which the first is the command's own name.
///
/// It reads the file that they name, and runs its day: the lines of `input` are taken and answered, changes are told,
/// and at the end each sweep's line is written, what the book didn't take, the legs that stay in doubt, the shares of
/// the day, and that the audit found nothing wrong. With `--check` it says what it would do. Faults go to `err`. The
/// answer is the exit status: 0, or that of the fault.
pub fn run_run<S, R, I, W, E>(
    rt: &R,
    alloc: Global,
    words: &[S],
    input: &mut I,
    out: &mut W,
    err: &mut E,
) -> u8
where
    S: AsStr,
    R: Net<Listener = TcpListener, Stream = TcpStream>
        + Files<File = File>
        + Threads
        + Wait
        + Clock
        + Sync,
    R::Dir: Send,
    I: Read + AsRawFd,
    W: Write + Send,
    E: Write,
    ensures { ExitsSo (W.contents out.old) (W.contents out.new) result }
{
    finish(run(rt, alloc, words, input, out), err)
}

#[tactic(auto, using(crate::proofs::Ends::before_day, crate::proofs::Ends::said_of, crate::proofs::Ends::of_day, crate::proofs::Journals::no_journal))]
fn run<S, R, I, W>(
    rt: &R,
    alloc: Global,
    words: &[S],
    input: &mut I,
    out: &mut W,
) -> Result<(), CommandFault>
where
    S: AsStr,
    R: Net<Listener = TcpListener, Stream = TcpStream>
        + Files<File = File>
        + Threads
        + Wait
        + Clock
        + Sync,
    R::Dir: Send,
    I: Read + AsRawFd,
    W: Write + Send,
    ensures { EndsRun (W.contents out.old) (W.contents out.new) result }
{
    let options = read_options(alloc, words)?;
    let config = read_file(rt, alloc, options.file)?;
    let tokens = read_tokens(rt, alloc, options.file, config.users.as_slice())?;
    let secrets = read_passwords(rt, alloc, options.file, config.venues.as_slice())?;
    if options.checks {
        return Ok(print(&check_text(alloc, &config)?, out)?);
    }
    let folder = log_folder(alloc, options.file, &config)?;
    let socket = socket_path(alloc, options.file, &config)?;
    let day = today(rt);
    let journal = journal_folder(alloc, options.file, &config, day)?;
    let options_of_day = DayOptions {
        manner: options.manner,
        form: options.form,
        folder: folder.as_deref(),
        journal: journal_at(&config, journal.as_deref(), day),
        tokens: tokens.as_slice(),
        socket: socket.as_deref(),
    };
    run_config(rt, alloc, &config, options_of_day, secrets, input, out)
}

/// The folder of the logs that the configuration of a file asks for, if it does.
fn log_folder(alloc: Global, file: &str, config: &DeskConfig) -> Result<Option<String>, AllocError>
    ensures { IfOk result (λ found. option_map string_bytes found ≡ option_map (folder_of file.now) config.now.log) }
{
    match &config.log {
        Some(folder) => Ok(Some(folder_of(alloc, file, folder.as_str())?)),
        None => Ok(None),
    }
}

/// The path of the Unix socket that the configuration of a file asks for, if it does.
fn socket_path(alloc: Global, file: &str, config: &DeskConfig) -> Result<Option<String>, AllocError>
    ensures { IfOk result (λ found. option_map string_bytes found ≡ option_map (folder_of file.now) config.now.socket) }
{
    match &config.socket {
        Some(socket) => Ok(Some(folder_of(alloc, file, socket.as_str())?)),
        None => Ok(None),
    }
}

/// The folder of a day's journals that the configuration of a file asks for, if it does.
fn journal_folder(
    alloc: Global,
    file: &str,
    config: &DeskConfig,
    day: Day,
) -> Result<Option<String>, AllocError>
    ensures { IfOk result (λ found. option_map string_bytes found ≡ journal_folder file.now config.now.journal day) }
{
    match &config.journal {
        Some(terms) => {
            let folder = terms.folder.folder_on(alloc, day)?;
            Ok(Some(folder_of(alloc, file, folder.as_str())?))
        }
        None => Ok(None),
    }
}

/// Where the day's journals are, and what they outlive, where the configuration asks for any.
fn journal_at<'a>(config: &DeskConfig, folder: Option<&'a str>, day: Day) -> Option<JournalAt<'a>>
    ensures { option_map (λ at. (at.folder.now, at.durable, at.day)) result
        ≡ journal_at config.now.journal (option_map (λ path. path.now) folder.entry) day }
{
    match (&config.journal, folder) {
        (Some(terms), Some(folder)) => Some(JournalAt {
            folder,
            durable: terms.durable,
            day,
        }),
        _ => None,
    }
}

/// What is printed at the end of a day, in this form.
fn end_text(alloc: Global, form: Form, day: &DeskDay) -> Result<Vec<u8>, AllocError>
    ensures { IfOk result (λ text. text.items ≡ end_text form day.now) }
{
    match form {
        Form::Words => day_text(alloc, day),
        Form::Json => json_text(alloc, day),
    }
}

/// Runs the day of a configuration, with the password of each venue that has one.
fn run_config<R, I, W>(
    rt: &R,
    alloc: Global,
    config: &DeskConfig,
    options: DayOptions<'_>,
    secrets: Vec<Option<Secret>>,
    input: &mut I,
    out: &mut W,
) -> Result<(), CommandFault>
where
    R: Net<Listener = TcpListener, Stream = TcpStream>
        + Files<File = File>
        + Threads
        + Wait
        + Clock
        + Sync,
    R::Dir: Send,
    I: Read + AsRawFd,
    W: Write + Send,
    requires venues { AreVenues config.now.venues.items }
    requires secrets { length secrets.items ≡ length config.now.venues.items }
    requires journal { config.now.journal ≡ None → options.journal ≡ None }
    requires kept { is_some config.now.journal ≡ true → is_some options.journal ≡ true }
    ensures ok { OnOk result (PrintsWholeDay config.now (W.contents out.new)) }
    ensures left { IfErr result (IfOpen (PrintsDay config.now (W.contents out.new))) }
    ensures err { IfErr result IsOfDay }
{
    let fd = input.as_raw_fd();
    let input = DeskInput { input, fd };
    let day = run_day(rt, alloc, config, options, secrets, input, &mut *out)?;
    print(&end_text(alloc, options.form, &day)?, out)?;
    match day.broken_off {
        Some(fault) => Err(CommandFault::from(fault)),
        None if !day.unbooked.is_empty() => Err(CommandFault::Unbooked),
        None if day.is_given_up || !day.doubts.is_empty() => Err(CommandFault::GivenUp),
        None => Ok(()),
    }
}
