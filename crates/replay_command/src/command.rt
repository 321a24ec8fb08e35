//! The words of `dispatch replay`.
ghost use Rattle.std.specs.Prelude.{MatchResult};
ghost use Rattle.clap.specs.declared.parser.matches.ArgMatches.{ArgMatches};
ghost use Rattle.replay_command.specs.Asked.{IsAsked, IsTask};
ghost use Rattle.replay_command.specs.Fault.{IsOfCommandLine};

use crate::asked::{Asked, Task};
use crate::fault::CommandFault;
use crate::shown::Shown;
use clap::{Arg, ArgAction, ArgMatches, Command};
use std::alloc::{AllocError, Global};
use std::convert::AsStr;

const STEPS: &str = "steps";

const FRAMES: &str = "frames";

const SUMMARY: &str = "summary";

const LADDER: &str = "ladder";

const CHECK: &str = "check";

const FILE: &str = "FILE";

/// The lines of a script, as its help has them.
const SCRIPT: &str = "\
Lines of the script:
  venues M D ..                       first: the number that no message has (16 to 999999999), and the
                                      dialect of each of 1 to 16 venues: plain, split or coded, with
                                      +789 behind it where its Logons say the next expected number
  release V SYM SIDE N PRICE [+ ..]   a sweep is released, each leg to its venue; PRICE is in
                                      ten-thousandths of a dollar
  up V, down V                        the gate of a venue goes up, or down
  take V, drop V                      its next placed leg is sent, or dropped and withdrawn
  connect V                           its session connects
  to V K, from V K                    the K-th frame written to the exchange, or by it, is delivered
  break V, xbreak V                   the connection is lost at the session's end, or the exchange's
  trade V I N PX, cancel V I          the exchange fills its I-th order, or cancels what is left
  reject V I, bust V I J              it rejects the order, or takes back the order's J-th trade
  test V                              it asks for a sign of life
  quiet V, silent V                   the session wrote, or heard, nothing for a while
  close V, abandon V                  the session logs out, or is given up
  crash [lost [sweeps S] [lines L ..]]  the dispatcher is killed and starts again from its disk, without
                                      the last S sweeps and the last L lines of each venue's journal
V counts from 0, K, I and J from 1. Blank lines and lines that begin with # are passed over.

Examples:
  dispatch replay --steps day.script
  dispatch replay --check < day.script";

/// The command `replay`, with its options.
pub fn replay_command<'a>(alloc: Global) -> Result<Command<'a>, AllocError> {
    Command::new(alloc, "replay")
        .about("Reads a day as a script, and prints what became of each leg")
        .after_help(SCRIPT)
        .arg(flag(
            alloc,
            STEPS,
            "first prints each event, as it happens, with what it did or why it did nothing",
        ))?
        .arg(flag(
            alloc,
            FRAMES,
            "prints each frame that was written, with | for SOH, before the world",
        ))?
        .arg(flag(
            alloc,
            SUMMARY,
            "prints the sums of the world in the place of its lines",
        ))?
        .arg(
            Arg::new(alloc, LADDER).long(LADDER).value_name("FILE").help(
                "draws the frames between each session and its exchange into this file, as SVG",
            ),
        )?
        .arg(
            flag(alloc, CHECK, "reads the script to its end and runs nothing")
                .conflicts_with(STEPS)?
                .conflicts_with(FRAMES)?
                .conflicts_with(SUMMARY)?
                .conflicts_with(LADDER)?,
        )?
        .arg(Arg::new(alloc, FILE).help("the file that has the script; else it is standard input"))
}

fn flag<'a>(alloc: Global, name: &'a str, help: &'a str) -> Arg<'a> {
    Arg::new(alloc, name)
        .long(name)
        .help(help)
        .action(ArgAction::SetTrue)
}

/// What the matched words ask to be done.
fn task_of(matches: &ArgMatches<'_>) -> Task
    ensures { IsTask matches.now result }
{
    if matches.get_flag(CHECK) {
        return Task::Check;
    }
    Task::Run(Shown {
        steps: matches.get_flag(STEPS),
        frames: matches.get_flag(FRAMES),
        summary: matches.get_flag(SUMMARY),
    })
}

/// What the words behind the command's name ask for.
pub fn read_words<'a, S: AsStr>(alloc: Global, words: &'a [S]) -> Result<Asked<'a>, CommandFault>
    ensures { MatchResult result (λ asked. (matches : ArgMatches) × IsAsked matches asked) IsOfCommandLine }
{
    let command = replay_command(alloc)?.bin_name("dispatch replay")?;
    let matches = command.try_get_matches_from(words)?;
    Ok(Asked {
        task: task_of(&matches),
        file: matches.get_str(FILE),
        ladder: matches.get_str(LADDER),
    })
}
