//! The options of `dispatch exchange`, as text.
ghost use Rattle.std.specs.Prelude.{◌≡◌, Some, IfOk, IfErr, MatchResult};
ghost use Rattle.clap.specs.declared.parser.matches.ArgMatches.{ArgMatches};
ghost use Rattle.exchange_command.specs.Options.{matched, AreOptions};
ghost use Rattle.exchange_command.specs.Fault.{IsOfWords};

use crate::fault::CommandFault;
use crate::option::{EXCHANGE_OPTIONS, ExchangeOption};
use clap::{Arg, ArgMatches, Command};
use std::alloc::{AllocError, Global};
use std::convert::AsStr;

/// The dialects that `--dialect` takes.
static DIALECTS: [&str; 3] = ["plain", "split", "coded"];

/// What stands behind the options in the help.
const EXAMPLES: &str = "\
It serves one client after another, and keeps its numbers over all of them; messages are counted from 1 over all
connections. It ends once a client leaves after a Logout, and says then how many orders it accepted.

Example, for a venue of a desk's file with target NYSE and sender DESK:
  dispatch exchange --port 9001 --sender NYSE --target DESK --fill 60";

/// The values of the options, each as it was written, or as it is where nothing was.
#[derive(Drop)]
pub struct Options<'a> {
    pub port: &'a str,
    pub sender: &'a str,
    pub target: &'a str,
    pub dialect: &'a str,
    pub fill: &'a str,
    pub cut: &'a str,
    pub lose: &'a str,
}

/// An option as the command line takes it.
fn arg<'a>(alloc: Global, option: ExchangeOption) -> Arg<'a> {
    let arg = Arg::new(alloc, option.name())
        .long(option.name())
        .value_name(option.value_name())
        .help(option.help());
    let arg = match option {
        ExchangeOption::Dialect => arg.value_parser(DIALECTS.as_slice()),
        _ => arg,
    };
    match option.default_value() {
        Some(value) => arg.default_value(value),
        None => arg.required(true),
    }
}

/// The command `exchange`, with its options.
pub fn exchange_command<'a>(alloc: Global) -> Result<Command<'a>, AllocError> {
    let mut command = Command::new(alloc, "exchange").about(
        "Serves as a simulated exchange on a port of this machine",
    );
    for option in &EXCHANGE_OPTIONS {
        command = command.arg(arg(alloc, *option))?;
    }
    Ok(command.after_help(EXAMPLES))
}

fn value<'a>(matches: &ArgMatches<'a>, option: ExchangeOption) -> Result<&'a str, CommandFault>
    ensures ok { IfOk result (λ text. matched matches.now option ≡ Some text.now) }
    ensures err { IfErr result (λ fault. fault ≡ CommandFault.NoValue option) }
{
    match matches.get_str(option.name()) {
        Some(text) => Ok(text),
        None => Err(CommandFault::NoValue(option)),
    }
}

/// The options that the command line matched, each under its name.
fn options_of<'a>(matches: &ArgMatches<'a>) -> Result<Options<'a>, CommandFault>
    ensures { MatchResult result (AreOptions matches.now) IsOfWords }
{
    Ok(Options {
        port: value(matches, ExchangeOption::Port)?,
        sender: value(matches, ExchangeOption::Sender)?,
        target: value(matches, ExchangeOption::Target)?,
        dialect: value(matches, ExchangeOption::Dialect)?,
        fill: value(matches, ExchangeOption::Fill)?,
        cut: value(matches, ExchangeOption::Cut)?,
        lose: value(matches, ExchangeOption::Lose)?,
    })
}

/// The options in these words. A missing, unknown or repeated option, and a dialect that isn't there, are faults of the
/// command line.
pub fn read_options<'a, S: AsStr>(
    alloc: Global,
    words: &'a [S],
) -> Result<Options<'a>, CommandFault>
    ensures { MatchResult result (λ options. (matches : ArgMatches) × AreOptions matches options) IsOfWords }
{
    let command = exchange_command(alloc)?.bin_name("dispatch exchange")?;
    let matches = command.try_get_matches_from(words)?;
    options_of(&matches)
}
