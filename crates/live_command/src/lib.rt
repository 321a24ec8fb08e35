//! `dispatch live`: a day over loopback runs in threads, and what became of each sweep is printed.
//!
//! Promises:
//! - `live_run` ends with the status of what it did (`ExitsSo`). Its words were refused, or have a bad value that is
//!   the first one (`plan_of`), and nothing is printed. Or the text of a day is printed (`day_text`) that was audited,
//!   whose venues are told as their workers left them (`IsLiveDay`), and whose shares were all placed but those of
//!   sweeps that were given up: with status 0 where an exchange answered, else with that of `no exchange answered`. No
//!   audit fails.
//! - What the words match is the command line parser's. What is told on the screen while a day runs, and that the day
//!   is cut short where its input asks for it, isn't said.
#![tactic(auto)]

ghost use Rattle.std.specs.Prelude.{◌≡◌, IfErr};
ghost use Rattle.live_command.specs.Running.{EndsRun, ExitsSo};

mod fault;
mod option;
mod options;
mod plan;
mod progress;
mod text;

use command_line::{finish, print};
pub use fault::CommandFault;
use live_load::run_live;
pub use option::LiveOption;
pub use options::{Options, live_command, read_options};
pub use plan::plan_of;
use progress::Watch;
use readiness::Readiness;
use std::alloc::Global;
use std::convert::AsStr;
use std::fs::{File, Files};
use std::io::{IsTerminal, Write};
use std::net::{Net, TcpListener, TcpStream};
use std::os::fd::AsRawFd;
use std::sync::Wait;
use std::thread::Threads;
use std::time::Clock;
pub use text::day_text;

/// Runs `dispatch live` on its words, of which the first is the command's own name.
///
/// It runs the day that the options ask for, and writes a line for each sweep and for each venue, how many sweeps were
/// given up, the shares of all, and that the audit found nothing wrong; faults go to `err`, and that no exchange
/// answered is one. While the day runs `screen`, where it is a terminal, is told how far it is. With `--stop-on-input`
/// the day is cut short once there is something to read on `input`, or that ends. The answer is the exit status: 0, or
/// that of the fault.
pub fn live_run<S, R, I, T, W, E>(
    rt: &R,
    alloc: Global,
    words: &[S],
    input: &I,
    screen: T,
    out: &mut W,
    err: &mut E,
) -> u8
where
    S: AsStr,
    R: Net<Listener = TcpListener, Stream = TcpStream>
        + Files<File = File>
        + Threads
        + Wait
        + Clock
        + Sync,
    I: AsRawFd,
    T: Write + IsTerminal + Drop + Send,
    W: Write,
    E: Write,
    ensures { ExitsSo (W.contents out.old) (W.contents out.new) result }
{
    finish(live(rt, alloc, words, input, screen, out), err)
}

fn live<S, R, I, T, W>(
    rt: &R,
    alloc: Global,
    words: &[S],
    input: &I,
    screen: T,
    out: &mut W,
) -> Result<(), CommandFault>
where
    S: AsStr,
    R: Net<Listener = TcpListener, Stream = TcpStream>
        + Files<File = File>
        + Threads
        + Wait
        + Clock
        + Sync,
    I: AsRawFd,
    T: Write + IsTerminal + Drop + Send,
    W: Write,
    ensures { EndsRun (W.contents out.old) (W.contents out.new) result }
{
    let options = read_options(alloc, words)?;
    let plan = plan_of(&options)?;
    let input = watched(rt, alloc, options.stops_on_input, input)?;
    let day = run_live(rt, alloc, plan, Watch::new(screen, input))?;
    print(&day_text(alloc, &day)?, out)?;
    if day.is_answered {
        Ok(())
    } else {
        Err(CommandFault::NoAnswer)
    }
}

/// The input that a day heeds, if it heeds one.
fn watched(
    net: &impl Net,
    alloc: Global,
    is_heeded: bool,
    input: &impl AsRawFd,
) -> Result<Option<Readiness>, CommandFault>
    ensures { IfErr result (λ fault. fault ≡ CommandFault.NoSocket) }
{
    if !is_heeded {
        return Ok(None);
    }
    match Readiness::new(net, alloc, input.as_raw_fd()) {
        Ok(input) => Ok(Some(input)),
        Err(_) => Err(CommandFault::NoSocket),
    }
}
