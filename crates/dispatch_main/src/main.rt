//! The program `dispatch`: `dispatch order ..` writes a leg as an order frame and reads it back, `dispatch replay` runs
//! a day from a script, `dispatch check ..` tells which rules the messages of a log break, `dispatch journal DAY`
//! judges the journals of a day, `dispatch live ..` runs a day over loopback, in threads, `dispatch run FILE` runs that
//! of a desk's file, and `dispatch exchange ..` is a simulated exchange.
#![tactic(auto)]

mod command;
mod fault;
mod streams;

use crate::command::{VERSION_LINE, no_command};
use crate::fault::ProgramFault;
use crate::streams::hold_closed_streams;
use check_command::check_run;
use clock::{Clock, UtcClock};
use command_line::{finish, print, tell};
use exchange_command::exchange_run;
use journal_command::journal_run;
use live_command::live_run;
use order_command::order_run;
use replay_command::replay_run;
use run_command::run_run;
use std::alloc::Global;
use std::convert::AsStr;
use std::fs::{File, Files};
use std::io::{IsTerminal, Read, Write};
use std::net::{Net, TcpListener, TcpStream};
use std::os::fd::AsRawFd;
use std::process::ExitCode;
use std::sync::Wait;
use std::thread::Threads;
use std::{env, io, time};

/// The words of the command line, of which the first is the program's own name.
fn words(rt: &HostRuntime) -> Result<Vec<String>, ProgramFault> {
    match env::args(rt) {
        Ok(words) => Ok(words.collect(rt.alloc())?),
        Err(error) if error.kind() == io::ErrorKind::OutOfMemory => Err(ProgramFault::OutOfMemory),
        Err(error) if error.kind() == io::ErrorKind::InvalidData => Err(ProgramFault::NotText),
        Err(_) => Err(ProgramFault::ReadFailed),
    }
}

/// Whether a word asks for the program's version.
fn is_version(word: &str) -> bool {
    word == "--version" || word == "-V"
}

/// Prints the program's name and version.
fn print_version<W: Write>(out: &mut W) -> Result<(), ProgramFault> {
    Ok(print(VERSION_LINE, out)?)
}

/// Runs the command that the words ask for, and gives the exit status.
fn run<S, H, C, R, T, W, E>(
    rt: &H,
    alloc: Global,
    words: &[S],
    clock: &mut C,
    input: &mut R,
    screen: T,
    out: &mut W,
    err: &mut E,
) -> u8
where
    S: AsStr,
    H: Net<Listener = TcpListener, Stream = TcpStream>
        + Files<File = File>
        + Threads
        + Wait
        + time::Clock
        + Sync,
    H::Dir: Send,
    C: Clock,
    R: Read + AsRawFd,
    T: Write + IsTerminal + Drop + Send,
    W: Write + Send,
    E: Write + IsTerminal,
{
    match words {
        [_, command, ..] if command.as_str() == "order" => {
            order_run(alloc, &words[1..], clock, input, out, err)
        }
        [_, command, ..] if command.as_str() == "replay" => {
            replay_run(rt, alloc, &words[1..], input, out, err)
        }
        [_, command, ..] if command.as_str() == "check" => {
            check_run(rt, alloc, &words[1..], out, err)
        }
        [_, command, ..] if command.as_str() == "journal" => {
            journal_run(rt, alloc, &words[1..], out, err)
        }
        [_, command, ..] if command.as_str() == "live" => {
            live_run(rt, alloc, &words[1..], input, screen, out, err)
        }
        [_, command, ..] if command.as_str() == "run" => {
            run_run(rt, alloc, &words[1..], input, out, err)
        }
        [_, command, ..] if command.as_str() == "exchange" => {
            exchange_run(rt, alloc, &words[1..], out, err)
        }
        [_, word, ..] if is_version(word.as_str()) => finish(print_version(out), err),
        _ => tell(&no_command(alloc, words), err),
    }
}

fn main(rt: HostRuntime) -> ExitCode {
    let _held = hold_closed_streams(&rt, rt.alloc());
    let mut clock = UtcClock::new(&rt);
    let mut input = rt.stdin();
    let mut out = rt.stdout();
    let mut err = rt.stderr();
    let status = match words(&rt) {
        Ok(words) => run(
            &rt,
            rt.alloc(),
            words.as_slice(),
            &mut clock,
            &mut input,
            rt.stderr(),
            &mut out,
            &mut err,
        ),
        Err(fault) => tell(&fault, &mut err),
    };
    ExitCode::from(status)
}
