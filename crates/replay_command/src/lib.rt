//! `dispatch replay`: a script is read, its day runs, and what became of each leg is printed.
//!
//! Promises:
//! - `replay_run` ends with the status of what it did (`ExitsSo`): its words were refused and nothing is printed, or
//!   what they ask for is done. Which words ask for what, and for a file, is the command line parser's and its
//!   reader's, and only tested. What is done with an input that is given is `replay_input`'s clause (`EndsTask`), on
//!   the script of the whole input.
//! - With `--steps` the steps come first, a line for each of the script's events in their order, with its number,
//!   the number and the text of its line, and what it did as `event_text` defines it (`AreSteps`).
//! - The world's lines come last, or with `--summary` its sums (`summed` in `world_text`), of exactly the world that
//!   the script's events lead to, and nothing else is printed unless frames are shown; or the first bad line is
//!   named. Only the input, memory and the output can fail besides, and nothing was printed then unless the output
//!   failed or steps are shown (`EndsRun`).
//! - With `--check` it is told that the text is a script, or its first bad line (`EndsCheck`).
//! - With `--ladder` it ends as it does without; or the day was printed as without, and the picture failed: its file is
//!   there already, can't be made or not be written, or memory was wanted for it (`IsNotDrawn`).
//! - It reads line by line and keeps none but the last, which is code and no clause.
//! - Not said: that it reads nothing behind a bad line, which steps were printed where a fault ends the run, and what
//!   the system gives or takes. What `--frames` prints between, what a picture shows, and that a file that is there
//!   already is left as it is, are only tested. The clauses are of readers and writers that tell their bytes, as those
//!   over memory do, and standard streams and files tell none.
#![tactic(auto)]

ghost use Rattle.std.specs.Prelude.{IfSome};
ghost use Rattle.replay_command.specs.Running.{EndsAsked, EndsReplay, EndsScript, EndsTask, ExitsSo};

mod asked;
mod begun;
mod check;
mod command;
mod course;
mod crash_fault;
mod crash_step;
mod day;
mod event_line;
mod event_step;
mod fault;
mod frames;
mod input;
pub mod laws;
mod picture;
mod print_day;
mod shown;
mod step;
mod told_input;

use crate::asked::Asked;
use crate::command::read_words;
use crate::picture::{blank, save};
use crate::print_day::{print_check, print_day};
pub use asked::Task;
pub use command::replay_command;
use command_line::finish;
pub use fault::CommandFault;
use ladder::Ladder;
pub use shown::Shown;
use std::alloc::Global;
use std::convert::AsStr;
use std::fs::{self, Files};
use std::io::{self, IsTerminal, Read, Write};
use told_input::ToldInput;

/// Runs `dispatch replay` on its words, of which the first is the command's own name.
///
/// It reads a script from the file that the words name, or else from `input`, and runs it as it is read, so that a bad
/// line ends it at once. It writes to `out` the lines of the world at the end, behind what the options ask for; with
/// `--check` it runs nothing. Faults go to `err`, and where that is a terminal it is told there how far a long script
/// is read, unless its steps are shown. Without `--steps` nothing is written to `out` before the script's end. The
/// answer is the exit status: 0, or that of the fault.
pub fn replay_run<F: Files, S: AsStr, R: Read, W: Write, E: Write + IsTerminal>(
    files: &F,
    alloc: Global,
    words: &[S],
    input: &mut R,
    out: &mut W,
    err: &mut E,
) -> u8
    ensures { ExitsSo (R.remaining input.old) (W.contents out.old) (W.contents out.new) result }
{
    let done = replay(files, alloc, words, input, out, err);
    finish(done, err)
}

fn replay<F: Files, S: AsStr, R: Read, W: Write, E: Write + IsTerminal>(
    files: &F,
    alloc: Global,
    words: &[S],
    input: &mut R,
    out: &mut W,
    err: &mut E,
) -> Result<(), CommandFault>
    ensures { EndsReplay (R.remaining input.old) (W.contents out.old) (W.contents out.new) result }
{
    let asked = read_words(alloc, words)?;
    replay_drawn(files, alloc, &asked, input, out, err)
}

/// Does what is asked for, and then writes the picture of the day, where one is.
fn replay_drawn<F: Files, R: Read, W: Write, E: Write + IsTerminal>(
    files: &F,
    alloc: Global,
    asked: &Asked<'_>,
    input: &mut R,
    out: &mut W,
    err: &mut E,
) -> Result<(), CommandFault>
    ensures { EndsAsked (R.remaining input.old) (W.contents out.old) (W.contents out.new) asked.now result }
{
    let mut picture = blank(alloc, asked.ladder);
    replay_script(files, alloc, asked, &mut picture, input, out, err)?;
    save(files, alloc, asked.ladder, &picture)
}

/// Does with the script of the file that is named, or else of the input, what is asked for.
fn replay_script<F: Files, R: Read, W: Write, E: Write + IsTerminal>(
    files: &F,
    alloc: Global,
    asked: &Asked<'_>,
    picture: &mut Option<Ladder>,
    input: &mut R,
    out: &mut W,
    err: &mut E,
) -> Result<(), CommandFault>
    ensures { EndsScript (R.remaining input.old) (W.contents out.old) (W.contents out.new) asked.now result }
{
    match asked.file {
        None => replay_told(alloc, asked.task, picture, input, out, err),
        Some(path) => replay_told(
            alloc,
            asked.task,
            picture,
            &mut open(files, path)?,
            out,
            err,
        ),
    }
}

/// Does with the script of an input what is asked for, and tells how far it is read, unless the steps do.
fn replay_told<R: Read, W: Write, E: Write + IsTerminal>(
    alloc: Global,
    task: Task,
    picture: &mut Option<Ladder>,
    input: &mut R,
    out: &mut W,
    err: &mut E,
) -> Result<(), CommandFault>
    ensures { IfSome (R.remaining input.old) (λ bytes.
        EndsTask task (W.contents out.old) (W.contents out.new) bytes result) }
{
    match task {
        Task::Run(shown) if shown.steps => play(alloc, task, picture, input, out),
        _ => play(alloc, task, picture, &mut ToldInput::new(input, err), out),
    }
}

/// Opens a file to be read.
fn open<F: Files>(files: &F, path: &str) -> Result<F::File, CommandFault> {
    match fs::open(files, path) {
        Ok(file) => Ok(file),
        Err(error) if error.kind() == io::ErrorKind::OutOfMemory => Err(CommandFault::OutOfMemory),
        Err(_) => Err(CommandFault::NoFile),
    }
}

/// Does with the script of an input what is asked for, and writes to `out` what is asked to be shown.
///
/// A line that isn't of its form ends it, and what follows isn't read.
pub fn replay_input<R: Read, W: Write>(
    alloc: Global,
    task: Task,
    input: &mut R,
    out: &mut W,
) -> Result<(), CommandFault>
    ensures { IfSome (R.remaining input.old) (λ bytes.
        EndsTask task (W.contents out.old) (W.contents out.new) bytes result) }
{
    play(alloc, task, &mut None, input, out)
}

/// The same, and draws the day where there is a picture.
fn play<R: Read, W: Write>(
    alloc: Global,
    task: Task,
    picture: &mut Option<Ladder>,
    input: &mut R,
    out: &mut W,
) -> Result<(), CommandFault>
    ensures { IfSome (R.remaining input.old) (λ bytes.
        EndsTask task (W.contents out.old) (W.contents out.new) bytes result) }
{
    match task {
        Task::Check => print_check(alloc, input, out),
        Task::Run(shown) => print_day(alloc, shown, picture, input, out),
    }
}
