//! The logs of venues are checked, each on its own.
ghost use Rattle.std.specs.Prelude.{[], IfErr, IfOk, OnOk, is_some};
ghost use Rattle.check_command.specs.Fault.{IsOfLogs};
ghost use Rattle.check_command.specs.Runs.{ChecksExactly, ChecksLogs, ChecksPath, ReadsNext};

use crate::command::Request;
use crate::day::Day;
use crate::fault::CommandFault;
use crate::files::open;
use crate::path_name::is_sweeps;
use day_check::{CheckedLog, DialectBy, LogFault, Printing, print_exact, print_log};
use std::alloc::Global;
use std::fs::Files;
use std::io::Write;

/// Whether a log isn't what the session writes, where that is asked for.
fn check_exactly<F: Files, W: Write>(
    files: &F,
    alloc: Global,
    by: Option<DialectBy>,
    printing: &Printing<'_>,
    out: &mut W,
) -> Result<bool, LogFault>
    ensures { IfOk result
        (ChecksExactly printing.now (is_some by) (W.contents out.old) (W.contents out.new)) }
{
    match by {
        None => Ok(false),
        Some(dialect) => {
            let mut input = open(files, alloc, printing.log)?;
            let is_broken = print_exact(alloc, printing, dialect, &mut input, out)?;
            Ok(is_broken)
        }
    }
}

/// Checks the log of a path.
fn check_path<F: Files, W: Write>(
    files: &F,
    alloc: Global,
    request: &Request<'_>,
    path: &str,
    is_of_day: bool,
    out: &mut W,
) -> Result<CheckedLog, LogFault>
    ensures { IfOk result
        (ChecksPath request.now is_of_day path.now (W.contents out.old) (W.contents out.new)) }
{
    let printing = request.printing(path, is_of_day);
    let mut input = open(files, alloc, path)?;
    let first = print_log(alloc, &printing, &mut input, out)?;
    let by = request.exact_of(is_of_day, first.is_own);
    let is_other = check_exactly(files, alloc, by, &printing, out)?;
    Ok(CheckedLog {
        is_broken: first.is_broken | is_other,
        is_own: first.is_own,
        day: first.day,
    })
}

/// The same, where a fault names the log.
fn check_log<F: Files, W: Write>(
    files: &F,
    alloc: Global,
    request: &Request<'_>,
    path: &str,
    is_of_day: bool,
    out: &mut W,
) -> Result<CheckedLog, CommandFault>
    ensures only { IfErr result IsOfLogs }
    ensures checked { IfOk result
        (ChecksPath request.now is_of_day path.now (W.contents out.old) (W.contents out.new)) }
{
    match check_path(files, alloc, request, path, is_of_day, out) {
        Ok(log) => Ok(log),
        Err(fault) => Err(CommandFault::of_log(alloc, path, fault)),
    }
}

/// Checks the log of a path, unless it is that of a desk's lines; of a day it is kept.
fn take_log<'a, F: Files, W: Write>(
    files: &F,
    alloc: Global,
    request: &Request<'_>,
    path: &'a str,
    is_of_day: bool,
    day: &mut Day<'a>,
    out: &mut W,
) -> Result<(), CommandFault>
    ensures only { IfErr result IsOfLogs }
    ensures read { OnOk result (ReadsNext request.now is_of_day path.entry.now
        (W.contents out.old) (W.contents out.new) day.old day.new) }
{
    if is_sweeps(path) {
        return Ok(());
    }
    let log = check_log(files, alloc, request, path, is_of_day, out)?;
    day.note(log.is_broken);
    if !is_of_day {
        return Ok(());
    }
    day.push(path, log)?;
    Ok(())
}

/// Checks the logs of the venues that the words name, each on its own, and keeps what is known of them for the day.
pub(crate) fn check_logs<'a, F: Files, W: Write>(
    files: &F,
    alloc: Global,
    request: &'a Request<'_>,
    is_of_day: bool,
    out: &mut W,
) -> Result<Day<'a>, CommandFault>
    ensures only { IfErr result IsOfLogs }
    ensures checked { IfOk result
        (ChecksLogs request.entry.now is_of_day [] (W.contents out.old) (W.contents out.new)) }
{
    let mut day = Day::new(alloc);
    for path in &request.paths {
        take_log(files, alloc, request, path, is_of_day, &mut day, out)?;
    }
    Ok(day)
}
