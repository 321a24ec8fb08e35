//! The commands of the program, as its help lists them.
ghost use Rattle.dispatch_main.specs.Fault.{IsOfCommandLine};

use crate::fault::ProgramFault;
use check_command::check_command;
use clap::Command;
use clap::error::ErrorKind;
use exchange_command::exchange_command;
use journal_command::journal_command;
use live_command::live_command;
use order_command::order_command;
use replay_command::replay_command;
use run_file::run_command;
use std::alloc::{AllocError, Global};
use std::convert::AsStr;

/// The program's version.
const VERSION: &str = "1.0.0";

/// What `--version` prints.
pub const VERSION_LINE: &[u8] = b"dispatch 1.0.0\n";

/// What stands behind the commands in the help.
const EXAMPLES: &str = "\
Examples:
  dispatch run examples/desk.toml < examples/morning.sweeps
  dispatch live --venues 2 --callers 2 --sweeps 5 --cut 3 --turns 10000
  dispatch replay < day.script
  dispatch check day/NYSE.log
  dispatch journal days/2026-11-24
  dispatch exchange --port 9001 --sender NYSE --target DESK --fill 60
  dispatch order --dialect plain --sweep 12 --leg 3 --symbol BRK.B --side buy --shares 100 --price 102500 \\
    --number 4 --from A --to B

The exit status is 0, or 2 for the command line, 3 for a bad value, line or frame, 4 for a failed read or write or where
there is no socket or thread, 5 for memory, 6 for an audit that fails, 7 for a day that is given up, 8 for a rule or
a journal that is broken, 9 for reports that the book didn't take. Help has status 2.";

/// The program with its commands, each with what it is for.
fn program<'a>(alloc: Global) -> Result<Command<'a>, AllocError> {
    Command::new(alloc, "dispatch")
        .bin_name("dispatch")?
        .about("The dispatcher of a smart order router")
        .version(VERSION)
        .after_help(EXAMPLES)
        .subcommand_required(true)
        .subcommand(run_command(alloc)?)?
        .subcommand(live_command(alloc)?)?
        .subcommand(replay_command(alloc)?)?
        .subcommand(check_command(alloc)?)?
        .subcommand(journal_command(alloc)?)?
        .subcommand(exchange_command(alloc)?)?
        .subcommand(order_command(alloc)?)
}

/// The help that lists the commands, where the words name none of them.
fn listed(alloc: Global) -> Result<String, AllocError> {
    program(alloc)?.render_help()
}

fn unlisted(alloc: Global) -> ProgramFault
    ensures { IsOfCommandLine result }
{
    match listed(alloc) {
        Ok(help) => ProgramFault::NoCommand(help),
        Err(_) => ProgramFault::OutOfMemory,
    }
}

/// Why these words, of which the first is the program's own name, run no command: they ask for help, or name none.
pub fn no_command<S: AsStr>(alloc: Global, words: &[S]) -> ProgramFault
    ensures { IsOfCommandLine result }
{
    let Ok(program) = program(alloc) else {
        return ProgramFault::OutOfMemory;
    };
    match program.try_get_matches_from(words) {
        Ok(_) => unlisted(alloc),
        Err(error) => match error.kind() {
            ErrorKind::OutOfMemory => ProgramFault::OutOfMemory,
            ErrorKind::MissingSubcommand | ErrorKind::InvalidSubcommand => unlisted(alloc),
            _ => ProgramFault::CommandLine(error),
        },
    }
}
