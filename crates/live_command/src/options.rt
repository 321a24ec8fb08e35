//! The options of `dispatch live`, as text.
ghost use Rattle.std.specs.Prelude.{◌≡◌, Some, IfOk, IfErr, MatchResult};
ghost use Rattle.clap.specs.declared.parser.matches.ArgMatches.{ArgMatches};
ghost use Rattle.live_command.specs.LiveOption.{matched, AreOptions};
ghost use Rattle.live_command.specs.Running.{IsOfWords};

use crate::fault::CommandFault;
use crate::option::{LIVE_OPTIONS, LiveOption};
use clap::{Arg, ArgAction, ArgMatches, Command};
use std::alloc::{AllocError, Global};
use std::convert::AsStr;

/// The flag that has the gates shut while orders are under way.
const CUT_SHORT: &str = "cut-short";

/// The flag that has the day heed its input.
const STOP_ON_INPUT: &str = "stop-on-input";

/// What stands behind the options in the help.
const EXAMPLES: &str = "\
Each sweep is an order of 10 shares for each venue, of which the exchange trades 6 and cancels 4. A worker reads what
its exchange sent, sends what callers placed, books what was reported, and rests where there is nothing to do. A line
is printed for each sweep, with its shares filled, busted, cancelled, withdrawn and open, and then how many sweeps were
given up, and what the audit says. A leg takes 3 to 4 KB of memory.

Examples:
  dispatch live
  dispatch live --venues 16 --callers 8 --sweeps 100 --cut 40 --cut-short";

/// The values of the options, each as it was written.
#[derive(Drop)]
pub struct Options<'a> {
    pub venues: &'a str,
    pub callers: &'a str,
    pub sweeps: &'a str,
    pub cut: &'a str,
    pub turns: &'a str,
    pub cuts_short: bool,
    /// Whether the day is cut short once there is something to read on standard input, or that ends.
    pub stops_on_input: bool,
}

/// The command `live`, with its options.
pub fn live_command<'a>(alloc: Global) -> Result<Command<'a>, AllocError> {
    let mut command = Command::new(alloc, "live").about(
        "Runs a day over loopback, in threads, and prints what became of each sweep",
    );
    for option in &LIVE_OPTIONS {
        let arg = Arg::new(alloc, option.name())
            .long(option.name())
            .value_name("N")
            .help(option.help())
            .default_value(option.default_value());
        command = command.arg(arg)?;
    }
    command
        .after_help(EXAMPLES)
        .arg(flag(
            alloc,
            CUT_SHORT,
            "shuts the gates once all sweeps are placed, and doesn't wait for what is open",
        ))?
        .arg(flag(
            alloc,
            STOP_ON_INPUT,
            "cuts the day short at a line of standard input, or at its end, and prints what there is",
        ))
}

fn flag<'a>(alloc: Global, name: &'a str, help: &'a str) -> Arg<'a> {
    Arg::new(alloc, name)
        .long(name)
        .help(help)
        .action(ArgAction::SetTrue)
}

fn value<'a>(matches: &ArgMatches<'a>, option: LiveOption) -> Result<&'a str, CommandFault>
    ensures ok { IfOk result (λ text. matched matches.now option ≡ Some text.now) }
    ensures err { IfErr result (λ fault. fault ≡ CommandFault.NoNumber option) }
{
    match matches.get_str(option.name()) {
        Some(text) => Ok(text),
        None => Err(CommandFault::NoNumber(option)),
    }
}

/// The options that the command line matched, each under its name.
fn options_of<'a>(matches: &ArgMatches<'a>) -> Result<Options<'a>, CommandFault>
    ensures { MatchResult result (AreOptions matches.now) IsOfWords }
{
    Ok(Options {
        venues: value(matches, LiveOption::Venues)?,
        callers: value(matches, LiveOption::Callers)?,
        sweeps: value(matches, LiveOption::Sweeps)?,
        cut: value(matches, LiveOption::Cut)?,
        turns: value(matches, LiveOption::Turns)?,
        cuts_short: matches.get_flag(CUT_SHORT),
        stops_on_input: matches.get_flag(STOP_ON_INPUT),
    })
}

/// The options in these words. An unknown or repeated option is a fault of the command line.
pub fn read_options<'a, S: AsStr>(
    alloc: Global,
    words: &'a [S],
) -> Result<Options<'a>, CommandFault>
    ensures { MatchResult result (λ options. (matches : ArgMatches) × AreOptions matches options) IsOfWords }
{
    let command = live_command(alloc)?.bin_name("dispatch live")?;
    let matches = command.try_get_matches_from(words)?;
    options_of(&matches)
}
