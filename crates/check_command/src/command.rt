//! The words of `dispatch check`.
ghost use Rattle.std.specs.Prelude.{◌≡◌, IfErr, IfOk, map, is_some, option_map, codes};
ghost use Rattle.clap.specs.Matches.{found_of, matched_of};
ghost use Rattle.clap.specs.declared.parser.matches.ArgMatches.{ArgMatches};
ghost use Rattle.check_command.specs.Fault.{IsOfCommandLine};
ghost use Rattle.check_command.specs.Request.{IsForm, IsRequest, values_of};
ghost use Rattle.check_command.specs.Runs.{is_own_form};

use crate::fault::CommandFault;
use clap::{Arg, ArgAction, ArgMatches, Command};
use day_check::{DialectBy, Form, Printing, RuleWords};
use dialect::AnyDialect;
use fix_tags::CompId;
use std::alloc::{AllocError, Global};
use std::convert::AsStr;

const LOG: &str = "LOG";

const FROM: &str = "from";

const DESK: &str = "desk";

const JSON: &str = "json";

const LEGS: &str = "legs";

const EXECUTIONS: &str = "executions";

const EXACT: &str = "exact";

/// The engines of others whose logs are read.
static ENGINES: [&str; 1] = ["quickfix"];

/// The dialects in which orders and reports are spelled, and `auto` for the one that a log's head names.
static DIALECTS: [&str; 4] = ["plain", "split", "coded", "auto"];

/// What stands behind the options in the help.
const OUTPUT: &str = "\
A log has a line for each message, with > where the session sent it and < where it received it:
  20261124-14:30:00.123 > 8=FIX.4.4|9=..|
Blank lines and lines that begin with # are passed over. Printed are, for each log:
  log PATH
  line N RULE: what the rule asks for (where the standard has it), and the line below it
  rule RULE held N broken N           or `not seen`, for each rule
  rule RULE held N broken N again N   where N breaks more follow from one that was named, and aren't told
and with --legs, for each order and then for each sweep:
  leg S1L1 taken number 3 sent 1 IBM buy 100 10.25 filled 60 busted 0 cancelled 40 withdrawn 0 open 0
  sweep 1 legs 100 filled 60 busted 0 cancelled 40 withdrawn 0 open 0
and with --executions, as soon as their lines are read, each report and each refusal of an order that counts, and
behind the rules how many there were, and how many of them the desk's book doesn't take:
  execution S1L1 fill 60 at 10.25 id E2
  unbooked execution S1L1 fill 300 at 10.25 id E9: overfill
  executions 2 duplicate 0 overfill 1 stray 0 unread 0
and with --exact, behind the rules, the first line that isn't what the session writes, and a line for this rule:
  line N exact: the session writes 8=FIX.4.4|9=..|
The dialect is that of the log's orders; auto stands for the one that the log's head names, as dispatch run writes it.
With sweeps.log among the logs, behind all of them what the day came to, for each sweep that was placed, and then
whether each sentence of the sweep theorem holds, or where it doesn't; each log whose first line says that dispatch
run wrote it is held against what its session writes, as with --exact auto:
  sentence order holds                or `broken PATH line N: what it says`, and the line below it

The exit status is 0, or 8 where a rule or a sentence is broken.

Examples:
  dispatch check day/NYSE.log day/ARCA.log
  dispatch check day/*.log";

/// What the words ask for.
#[derive(Drop)]
pub(crate) struct Request<'a> {
    pub paths: Vec<&'a str>,
    pub form: Form,
    /// The words of the rules.
    pub words: Vec<RuleWords>,
    /// Whether JSON is printed in place of text.
    pub is_json: bool,
    /// Whether it is told what became of each leg.
    pub tells_legs: bool,
    /// Whether each execution is told.
    pub tells_executions: bool,
    /// The dialect in which each log is held against what the session writes.
    pub exact: Option<DialectBy>,
}

/// Whether the logs are this program's.
fn is_own_form(form: &Form) -> bool
    ensures { result ≡ is_own_form form.now }
{
    matches!(form, Form::Own)
}

impl<'a> Request<'a> {
    ghost use Rattle.day_check.specs.LogText.{style_of};
    ghost use Rattle.std.specs.Prelude.{is_some};
    ghost use Rattle.check_command.specs.Runs.{holds_exactly, style_asked};

    /// How what is said of a log is printed, of a day's where the day is judged too.
    pub(crate) fn printing<'b>(&'b self, log: &'b str, is_of_day: bool) -> Printing<'b>
        ensures style { style_of result ≡ style_asked self.entry.now is_of_day }
        ensures path { result.log.now ≡ log.entry.now }
        ensures is_json { result.is_json ≡ self.entry.now.is_json }
    {
        Printing {
            log,
            form: &self.form,
            words: self.words.as_slice(),
            is_json: self.is_json,
            tells_legs: self.tells_legs,
            tells_executions: self.tells_executions,
            keeps_legs: self.tells_legs || self.tells_executions || is_of_day,
        }
    }

    /// The dialect in which a log is held against what its session writes, if it is: of a day also where its first line
    /// says that this program wrote it.
    pub(crate) fn exact_of(&self, is_of_day: bool, is_own: bool) -> Option<DialectBy>
        ensures { is_some result ≡ holds_exactly self.now is_of_day is_own }
    {
        match self.exact {
            Some(dialect) => Some(dialect),
            None if is_of_day && is_own && is_own_form(&self.form) => Some(DialectBy::Head),
            None => None,
        }
    }
}

fn from_arg<'a>(alloc: Global) -> Result<Arg<'a>, AllocError> {
    Arg::new(alloc, FROM)
        .long(FROM)
        .value_name("ENGINE")
        .help("whose logs they are, if not this program's")
        .value_parser(ENGINES.as_slice())
        .requires_arg(DESK)
}

fn desk_arg<'a>(alloc: Global) -> Result<Arg<'a>, AllocError> {
    Arg::new(alloc, DESK)
        .long(DESK)
        .value_name("COMPID")
        .help("the comp id of the desk, by which a log of another engine is read")
        .requires_arg(FROM)
}

fn exact_arg<'a>(alloc: Global) -> Result<Arg<'a>, AllocError> {
    Arg::new(alloc, EXACT)
        .long(EXACT)
        .value_name("DIALECT")
        .help("holds each log of this program against what its session writes")
        .value_parser(DIALECTS.as_slice())
        .conflicts_with(FROM)
}

fn json_arg<'a>(alloc: Global) -> Arg<'a> {
    Arg::new(alloc, JSON)
        .long(JSON)
        .help("prints an object of JSON for each line")
        .action(ArgAction::SetTrue)
}

fn legs_arg<'a>(alloc: Global) -> Arg<'a> {
    Arg::new(alloc, LEGS)
        .long(LEGS)
        .help("tells what became of each leg, and of each sweep")
        .action(ArgAction::SetTrue)
}

fn executions_arg<'a>(alloc: Global) -> Arg<'a> {
    Arg::new(alloc, EXECUTIONS)
        .long(EXECUTIONS)
        .help("tells each execution, and how many the desk's book doesn't take")
        .action(ArgAction::SetTrue)
}

/// The command `check`.
pub fn check_command<'a>(alloc: Global) -> Result<Command<'a>, AllocError> {
    Command::new(alloc, "check")
        .about("Tells which rules the messages of a venue's log break")
        .after_help(OUTPUT)
        .arg(
            Arg::new(alloc, LOG)
                .help("the logs, each of one venue's day, and sweeps.log")
                .action(ArgAction::Append)
                .num_args(1..)
                .required(true),
        )?
        .arg(from_arg(alloc)?)?
        .arg(desk_arg(alloc)?)?
        .arg(legs_arg(alloc))?
        .arg(executions_arg(alloc))?
        .arg(exact_arg(alloc)?)?
        .arg(json_arg(alloc))
}

/// The form of the logs of a desk of this name, if one is given; else they are this program's.
fn form_of(desk: Option<&str>) -> Result<Form, CommandFault>
    ensures form { IfOk result (IsForm (option_map (λ text. text.now) desk.entry)) }
    ensures only { IfErr result IsOfCommandLine }
{
    let Some(desk) = desk else {
        return Ok(Form::Own);
    };
    match CompId::new(desk.as_bytes()) {
        Some(desk) => Ok(Form::Quickfix { desk }),
        None => Err(CommandFault::BadDesk),
    }
}

/// The dialect of a name; `auto` stands for the one that a log's head names.
fn dialect_of(name: Option<&str>) -> Option<DialectBy>
    ensures { is_some result ≡ is_some (option_map (λ text. text.now) name.entry) }
{
    match AnyDialect::named(name?) {
        Some(dialect) => Some(DialectBy::Name(dialect)),
        None => Some(DialectBy::Head),
    }
}

/// The logs that were named, in their order.
fn paths_in<'a>(alloc: Global, matches: &ArgMatches<'a>) -> Result<Vec<&'a str>, AllocError>
    ensures { IfOk result (λ paths. map (λ path. path.now) paths.items ≡ values_of
        (matched_of (found_of matches.now) (codes "LOG"))) }
{
    match matches.get_strs(LOG) {
        Some(paths) => Ok(Vec::from_slice(alloc, paths)?),
        None => Ok(Vec::new(alloc)),
    }
}

/// What the words behind the command's name ask for.
pub(crate) fn read_words<'a, S: AsStr>(
    alloc: Global,
    words: &'a [S],
) -> Result<Request<'a>, CommandFault>
    ensures asked { IfOk result (λ request. (matches : ArgMatches) × IsRequest matches request) }
    ensures only { IfErr result IsOfCommandLine }
{
    let command = check_command(alloc)?.bin_name("dispatch check")?;
    let matches = command.try_get_matches_from(words)?;
    let form = form_of(matches.get_str(DESK))?;
    let paths = paths_in(alloc, &matches)?;
    let is_json = matches.get_flag(JSON);
    let tells_legs = matches.get_flag(LEGS);
    let tells_executions = matches.get_flag(EXECUTIONS);
    let exact = dialect_of(matches.get_str(EXACT));
    Ok(Request {
        paths,
        form,
        words: Vec::from_slice(alloc, &RuleWords::of_all())?,
        is_json,
        tells_legs,
        tells_executions,
        exact,
    })
}
