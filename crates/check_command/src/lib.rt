//! `dispatch check`: the logs of venues are read, and each rule that a message breaks is told.
//!
//! Promises:
//! - `check_run` ends with the status of what it did (`ExitsSo`): 8 where something is broken, 0 where nothing is, or
//!   that of its fault; where its words are refused, the names of logs among them, nothing is printed. Broken is a rule
//!   in the lines that were read of the logs it took (`ChecksEach`), or, with a desk's log, a sentence (`ChecksDay`).
//! - A log is held against what its session writes where that is asked for, and of a day where its first line says that
//!   this program wrote it (`holds_exactly`).
//! - What is printed as text is exactly what those lines come to: of each log of a venue `log_text` of `day_check`, in
//!   their order, and then `day_text` of the day, with each sentence as `judged` of `day_rules` has it.
//! - The object of a fault has its log and its line, its words where this crate has them, and what to do (`IsObject`).
//! - Not said: that the logs are those of the words, whose parse no clause pins, so that a body which takes none meets
//!   it; that lines are those of files; that a line shown beside a broken sentence stands in its log; which words stand
//!   for a rule; what is printed with `--json` or before a fault, and that `err` is given that object; and what
//!   `explain` of `session_trace` said of a log, whose answer is printed.
#![tactic(auto)]

ghost use Rattle.std.specs.Prelude.{◌≡◌, IfErr, IfOk};
ghost use Rattle.check_command.specs.Fault.{IsOfLogs};
ghost use Rattle.check_command.specs.PathName.{sweeps_paths};
ghost use Rattle.check_command.specs.Runs.{paths_asked};
ghost use Rattle.check_command.specs.Running.{ChecksAsked, ChecksDay, ChecksEach, EndsCheck};
ghost use Rattle.check_command.specs.Running.{ExitsSo, KeepsWhereRefused, check_status};

mod command;
mod day;
mod fault;
mod files;
mod logs;
mod path_name;
mod sentences;

use crate::command::{Request, read_words};
use crate::fault::tell_json;
use crate::logs::check_logs;
use crate::path_name::{sweeps_of, venue_names};
use crate::sentences::check_day;
pub use command::check_command;
use command_line::tell;
pub use fault::CommandFault;
use std::alloc::Global;
use std::convert::AsStr;
use std::fs::Files;
use std::io::Write;

/// The exit status where a rule or a sentence is broken.
const BROKEN: u8 = 8;

/// Runs `dispatch check` on its words, of which the first is the command's own name: each log that they name is read,
/// the rules that its messages break are written to `out`, and then how often each rule was held and broken; with the
/// log of a desk's lines among them, also what the day came to. Faults go to `err`, with `--json` as objects. The
/// answer is the exit status: 0 where no rule and no sentence is broken, 8 where one is, or that of the fault.
pub fn check_run<F: Files, S: AsStr, W: Write, E: Write>(
    files: &F,
    alloc: Global,
    words: &[S],
    out: &mut W,
    err: &mut E,
) -> u8
    ensures { ExitsSo (W.contents out.old) (W.contents out.new) result }
{
    finish(alloc, check(files, alloc, words, out), err)
}

/// How a run ended.
#[derive(Drop)]
struct Ended {
    /// Whether something is broken.
    done: Result<bool, CommandFault>,
    /// Whether JSON is asked for in place of text.
    is_json: bool,
}

/// The exit status of a run that ended so. Its fault is written to `err`.
fn finish<E: Write>(alloc: Global, ended: Ended, err: &mut E) -> u8
    ensures { result ≡ check_status ended.done }
{
    let Ended { done, is_json } = ended;
    match done {
        Ok(false) => 0,
        Ok(true) => BROKEN,
        Err(fault) => {
            if is_json {
                tell_json(alloc, &fault, err)
            } else {
                tell(&fault, err)
            }
        }
    }
}

/// Whether a rule is broken in one of the logs of venues that the words name, each for itself.
fn check_each<F: Files, W: Write>(
    files: &F,
    alloc: Global,
    request: &Request<'_>,
    out: &mut W,
) -> Result<bool, CommandFault>
    ensures checked { IfOk result (ChecksEach request.now (W.contents out.old) (W.contents out.new)) }
    ensures only { IfErr result IsOfLogs }
{
    let day = check_logs(files, alloc, request, false, out)?;
    Ok(day.is_broken)
}

/// The same, or a sentence of the sweep theorem by all of them, with the log of a desk's lines at this path.
fn check_whole<F: Files, W: Write>(
    files: &F,
    alloc: Global,
    request: &Request<'_>,
    path: &str,
    out: &mut W,
) -> Result<bool, CommandFault>
    ensures checked { IfOk result (ChecksDay request.now path.now (W.contents out.old) (W.contents out.new)) }
    ensures kept { IfErr result (KeepsWhereRefused (W.contents out.old) (W.contents out.new)) }
{
    let names = venue_names(alloc, &request.paths)?;
    let day = check_logs(files, alloc, request, true, out)?;
    let is_day_broken = check_day(files, alloc, request, &day, path, names, out)?;
    Ok(day.is_broken | is_day_broken)
}

/// Whether something is broken of what the words ask for.
fn check_asked<F: Files, W: Write>(
    files: &F,
    alloc: Global,
    request: &Request<'_>,
    out: &mut W,
) -> Result<bool, CommandFault>
    ensures checked { IfOk result (ChecksAsked request.now
        (sweeps_paths (paths_asked request.now)) (W.contents out.old) (W.contents out.new)) }
    ensures kept { IfErr result (KeepsWhereRefused (W.contents out.old) (W.contents out.new)) }
{
    match sweeps_of(&request.paths)? {
        None => check_each(files, alloc, request, out),
        Some(path) => check_whole(files, alloc, request, path, out),
    }
}

/// Reads the words, and does what they ask for.
fn check<F: Files, S: AsStr, W: Write>(files: &F, alloc: Global, words: &[S], out: &mut W) -> Ended
    ensures { EndsCheck (W.contents out.old) (W.contents out.new) result.done }
{
    match read_words(alloc, words) {
        Ok(request) => Ended {
            done: check_asked(files, alloc, &request, out),
            is_json: request.is_json,
        },
        Err(fault) => Ended {
            done: Err(fault),
            is_json: false,
        },
    }
}
