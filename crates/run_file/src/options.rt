//! The options of `dispatch run`.
ghost use Rattle.run_file.specs.Fault.{IfOpen};
ghost use Rattle.std.specs.Prelude.{◌≡◌, IfErr};

use crate::fault::CommandFault;
use clap::{Arg, ArgAction, ArgMatches, Command};
use desk_floor::Manner;
use fix_tags::read_number;
use json_lines::Form;
use std::alloc::{AllocError, Global};
use std::convert::AsStr;

const EXECUTIONS: &str = "executions";

const FILE: &str = "FILE";

const CHECK: &str = "check";

const JSON: &str = "json";

const PATIENCE: &str = "patience";

const QUIET: &str = "quiet";

const REFS: &str = "refs";

const SERVE: &str = "serve";

const WAIT: &str = "wait";

/// How many seconds open shares are waited for at the end where the command line doesn't say.
const USUAL_PATIENCE: u64 = 30;

/// The most.
const MAX_PATIENCE: u64 = 86_400;

/// What stands behind the options in the help.
const EXAMPLES: &str = "\
Takes lines on standard input until it ends, or until `close`, and answers each:

  sweep NYSE BRK.B buy 100 10.25 + ARCA IBM sell 50 100
  sweep ref=P7-3 NYSE IBM buy 100 10.25
  status
  close

Example:
  dispatch run examples/desk.toml < examples/morning.sweeps";

/// What the command line asks for.
#[derive(Drop)]
pub struct Options<'a> {
    /// The name of the desk's file.
    pub file: &'a str,
    /// Whether the file is only read, and told.
    pub checks: bool,
    pub manner: Manner,
    pub form: Form,
}

fn flag<'a>(alloc: Global, name: &'a str, help: &'a str) -> Arg<'a> {
    Arg::new(alloc, name)
        .long(name)
        .help(help)
        .action(ArgAction::SetTrue)
}

/// The command `run`, with its options.
pub fn run_command<'a>(alloc: Global) -> Result<Command<'a>, AllocError> {
    let file = Arg::new(alloc, FILE).help("the desk's file").required(true);
    let patience = Arg::new(alloc, PATIENCE)
        .long(PATIENCE)
        .value_name("S")
        .help(
            "for how many seconds open shares are waited for at the end, 0 to 86400; 30 without it",
        );
    let refs = Arg::new(alloc, REFS)
        .long(REFS)
        .value_name("required")
        .help("refuses sweeps that have no reference");
    Command::new(alloc, "run")
        .about(
            "Runs the day of a desk's file: takes sweeps by lines, and tells what becomes of them",
        )
        .after_help(EXAMPLES)
        .arg(file)?
        .arg(flag(alloc, CHECK, "reads the file, and says what it would do"))?
        .arg(patience)?
        .arg(flag(alloc, EXECUTIONS, "tells each execution, with its number"))?
        .arg(flag(alloc, QUIET, "tells no changes while they come"))?
        .arg(flag(alloc, JSON, "writes each line as an object of JSON"))?
        .arg(refs)?
        .arg(flag(
            alloc,
            WAIT,
            "has a line wait until its venues have room, in place of R05",
        ))?
        .arg(flag(
            alloc,
            SERVE,
            "goes on once the input has ended, until the page or a signal closes the day",
        ))
}

/// The patience that the command line asks for.
fn patience_of(matches: &ArgMatches<'_>) -> Result<u64, CommandFault>
    ensures { IfErr result (λ fault. fault ≡ CommandFault.BadPatience) }
{
    let Some(text) = matches.get_str(PATIENCE) else {
        return Ok(USUAL_PATIENCE);
    };
    match read_number(text.as_bytes()) {
        Some(seconds) if seconds <= MAX_PATIENCE => Ok(seconds),
        _ => Err(CommandFault::BadPatience),
    }
}

/// Whether the command line asks for a reference of each sweep.
fn wants_refs(matches: &ArgMatches<'_>) -> Result<bool, CommandFault>
    ensures { IfErr result (λ fault. fault ≡ CommandFault.BadRefs) }
{
    match matches.get_str(REFS) {
        None => Ok(false),
        Some("required") => Ok(true),
        Some(_) => Err(CommandFault::BadRefs),
    }
}

/// The options in these words. A missing, unknown or repeated option is a fault of the command line.
#[tactic(auto, using(crate::proofs::Ends::of_words))]
pub fn read_options<'a, S: AsStr>(
    alloc: Global,
    words: &'a [S],
) -> Result<Options<'a>, CommandFault>
    ensures { IfErr result (IfOpen ⊥) }
{
    let command = run_command(alloc)?.bin_name("dispatch run")?;
    let matches = command.try_get_matches_from(words)?;
    let Some(file) = matches.get_str(FILE) else {
        return Err(CommandFault::NoName);
    };
    let patience = patience_of(&matches)?;
    let wants_refs = wants_refs(&matches)?;
    Ok(Options {
        file,
        checks: matches.get_flag(CHECK),
        manner: Manner {
            patience,
            tells_news: !matches.get_flag(QUIET),
            tells_executions: matches.get_flag(EXECUTIONS),
            wants_refs,
            waits: matches.get_flag(WAIT),
            serves: matches.get_flag(SERVE),
        },
        form: if matches.get_flag(JSON) {
            Form::Json
        } else {
            Form::Words
        },
    })
}
