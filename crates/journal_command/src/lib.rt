//! `dispatch journal`: the journals in a day's folder are read and judged, or the log of one is made.
//!
//! Promises:
//! - `journal_run` ends with the status of what it did (`ExitsSo`): 8 where a journal is broken, 0 where none is, or
//!   that of its fault, before which nothing is printed.
//! - What is printed is exactly what the journals that are listed come to, each once and in order (`journals_text`,
//!   `Says`), with what the bytes of as many files as are listed say (`IsSaid`), by `IsFoundOf` and `IsRefused` of
//!   `journal_folder`. So a line that is damaged is told with its place, and is never taken for the end of its file.
//! - With `--log` what is printed is the log of a journal whose files were read, by `PrintsLog` of `journal_log`: its
//!   head, and what its lines come to (`LogsJournal`); at a line that says nothing, that of the lines before it
//!   (`LogsUpTo`).
//! - Not said: which journals are in the folder, that the journal of a log has the venue's name, that the bytes are
//!   those of its files, and what the words are parsed to, which no clause pins. The folder that is read is the one of
//!   that parse, and so are the flag and the venue (`IsRequest`).
#![tactic(auto)]

ghost use Rattle.std.specs.Prelude.{◌≡◌, IfErr, IfOk};
ghost use Rattle.journal_command.specs.Running.{Does, EndsJudging, ExitsSo, Judges, KeepsBefore, journal_status};

mod command;
mod fault;
mod log;
mod said;
mod text;

pub use crate::command::journal_command;
use crate::command::{Request, read_words};
pub use crate::fault::CommandFault;
use crate::log::log_venue;
use crate::said::say_folder;
use command_line::{print, tell};
use std::alloc::Global;
use std::convert::AsStr;
use std::fs::{File, Files};
use std::io::Write;

/// The exit status where a journal is broken.
const BROKEN: u8 = 8;

/// Runs `dispatch journal` on its words, of which the first is the command's own name: what the journals of a folder
/// say is written to `out`, and a fault to `err`. The answer is the exit status: 0 where each journal can be gone on
/// with, 8 where one can't, or that of the fault.
pub fn journal_run<F: Files<File = File>, S: AsStr, W: Write, E: Write>(
    files: &F,
    alloc: Global,
    words: &[S],
    out: &mut W,
    err: &mut E,
) -> u8
    ensures { ExitsSo (W.contents out.old) (W.contents out.new) result }
{
    finish(judge(files, alloc, words, out), err)
}

/// The exit status of a run that ended so. Its fault is written to `err`.
fn finish<E: Write>(done: Result<bool, CommandFault>, err: &mut E) -> u8
    ensures { result ≡ journal_status done }
{
    match done {
        Ok(false) => 0,
        Ok(true) => BROKEN,
        Err(fault) => tell(&fault, err),
    }
}

/// Whether a journal in the folder that the words name is broken.
fn judge<F: Files<File = File>, S: AsStr, W: Write>(
    files: &F,
    alloc: Global,
    words: &[S],
    out: &mut W,
) -> Result<bool, CommandFault>
    ensures { EndsJudging (W.contents out.old) (W.contents out.new) result }
{
    let request = read_words(alloc, words)?;
    do_asked(files, alloc, &request, out)
}

/// Prints what is asked for. A log that was printed is of no broken journal.
fn do_asked<F: Files<File = File>, W: Write>(
    files: &F,
    alloc: Global,
    request: &Request<'_>,
    out: &mut W,
) -> Result<bool, CommandFault>
    ensures done { IfOk result (Does request.now (W.contents out.old) (W.contents out.new)) }
    ensures kept { IfErr result (KeepsBefore (W.contents out.old) (W.contents out.new)) }
{
    match request.log {
        Some(name) => {
            log_venue(files, alloc, request.folder, name, out)?;
            Ok(false)
        }
        None => judge_asked(files, alloc, request, out),
    }
}

/// Prints what the journals say that are asked for.
fn judge_asked<F: Files<File = File>, W: Write>(
    files: &F,
    alloc: Global,
    request: &Request<'_>,
    out: &mut W,
) -> Result<bool, CommandFault>
    ensures judged { IfOk result (Judges request.now (W.contents out.old) (W.contents out.new)) }
    ensures kept { IfErr result (KeepsBefore (W.contents out.old) (W.contents out.new)) }
{
    let said = say_folder(files, alloc, request)?;
    print(&said.text, out)?;
    Ok(said.is_broken)
}
