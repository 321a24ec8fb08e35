//! The words of `dispatch journal`.

ghost use Rattle.std.specs.Prelude.{IfErr, IfOk};
ghost use Rattle.clap.specs.declared.parser.matches.ArgMatches.{ArgMatches};
ghost use Rattle.journal_command.specs.Fault.{IsOfWords};
ghost use Rattle.journal_command.specs.Request.{IsRequest};

use crate::fault::CommandFault;
use clap::{Arg, ArgAction, Command};
use std::alloc::{AllocError, Global};
use std::convert::AsStr;

const DAY: &str = "DAY";

const LINES: &str = "lines";

const LOG: &str = "log";

/// What stands behind the options in the help.
const OUTPUT: &str = "\
Nothing in the folder is changed, and its lock isn't taken. Printed are, for each journal in it:
  journal NYSE
  words day 2026-11-24 desk DESK      what the heads of its files say
  line N TEXT                         with --lines, each line that counts
  end whole files 2 lines 1024
or, where a line was being written when its life ended,
  end torn files 2 lines 1024 bytes 10 stray 0
and where no dispatcher can go on with it, in the place of all that:
  broken file 2 is damaged at line 7, byte 611

With --log, the messages of one venue are printed in the place of all that, as the log of a day has them:
  # venue NYSE address unknown sender DESK target NYSE dialect plain heartbeat 30 next_expected no
  20261124-14:30:00.123 > 8=FIX.4.4|9=..|

The exit status is 0, or 8 where a journal is broken.

Examples:
  dispatch journal days/2026-11-24
  dispatch journal --log NYSE days/2026-11-24 > NYSE.log";

/// What the words ask for.
#[derive(Drop)]
pub(crate) struct Request<'a> {
    /// The path of the folder.
    pub folder: &'a str,
    /// Whether each line is printed.
    pub tells_lines: bool,
    /// The venue whose log is printed in the place of what the journals say.
    pub log: Option<&'a str>,
}

/// The command `journal`.
pub fn journal_command<'a>(alloc: Global) -> Result<Command<'a>, AllocError> {
    Command::new(alloc, "journal")
        .about("Tells what the journals of a day say, and whether they can be gone on with")
        .after_help(OUTPUT)
        .arg(
            Arg::new(alloc, DAY)
                .help("the folder of a day's journals, as the desk's file names it")
                .required(true),
        )?
        .arg(
            Arg::new(alloc, LINES)
                .long(LINES)
                .help("prints each line that counts")
                .action(ArgAction::SetTrue),
        )?
        .arg(
            Arg::new(alloc, LOG)
                .long(LOG)
                .value_name("VENUE")
                .help("prints the message log of this venue, made of its journal")
                .conflicts_with(LINES)?,
        )
}

/// What the words behind the command's name ask for.
pub(crate) fn read_words<'a, S: AsStr>(
    alloc: Global,
    words: &'a [S],
) -> Result<Request<'a>, CommandFault>
    ensures asked { IfOk result (λ request. (matches : ArgMatches) × IsRequest matches request) }
    ensures only { IfErr result IsOfWords }
{
    let command = journal_command(alloc)?.bin_name("dispatch journal")?;
    let matches = command.try_get_matches_from(words)?;
    let tells_lines = matches.get_flag(LINES);
    let log = matches.get_str(LOG);
    match matches.get_str(DAY) {
        Some(folder) => Ok(Request {
            folder,
            tells_lines,
            log,
        }),
        None => Err(CommandFault::NoFolder),
    }
}
