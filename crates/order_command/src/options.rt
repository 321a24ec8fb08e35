//! The options of `dispatch order`, as text.
ghost use Rattle.std.specs.Prelude.{◌≡◌, Some, IfOk, IfErr, MatchResult, codes, option_and_then};
ghost use Rattle.clap.specs.declared.parser.matches.ArgMatches.{ArgMatches};
ghost use Rattle.dialect.specs.DialectName.{dialect_named};
ghost use Rattle.order_command.specs.Options.{matched, flagged, AreOptions, IsAsked};
ghost use Rattle.order_command.specs.Running.{IsOfWords};

use crate::asked::Asked;
use crate::fault::CommandFault;
use crate::form::OrderForm;
use crate::option::{ORDER_OPTIONS, OrderOption};
use clap::{Arg, ArgAction, ArgMatches, Command};
use dialect::AnyDialect;
use std::alloc::{AllocError, Global};
use std::convert::AsStr;

/// The dialects that `--dialect` takes.
static DIALECTS: [&str; 3] = ["plain", "split", "coded"];

/// The flag that asks for a frame to be read.
const READ: &str = "read";

/// The flag that asks for the bytes of the frame alone.
const RAW: &str = "raw";

/// What stands behind the options in the help.
const EXAMPLES: &str = "\
Prints the frame with | for SOH (a | and a \\ of its own as \\| and \\\\), and the leg in a line behind it. --read
takes a frame as it is, or as it is printed, and looks at the first 65536 bytes. A number is a whole number;
zeros may stand before it.

Examples:
  dispatch order --dialect plain --sweep 12 --leg 3 --symbol BRK.B --side buy --shares 100 --price 102500 \\
    --number 4 --from A --to B
  dispatch order --dialect plain --read < order.fix";

/// The values of the options, each as it was written. All but `at` are required.
#[derive(Drop)]
pub struct Options<'a> {
    pub dialect: AnyDialect,
    pub sweep: &'a str,
    pub leg: &'a str,
    pub symbol: &'a str,
    pub side: &'a str,
    pub shares: &'a str,
    pub price: &'a str,
    pub number: &'a str,
    pub from: &'a str,
    pub to: &'a str,
    pub at: Option<&'a str>,
    pub form: OrderForm,
}

/// An option as the command line takes it. The dialect is required, the moment isn't, and the others are where no frame
/// is read.
fn arg<'a>(alloc: Global, option: OrderOption) -> Result<Arg<'a>, AllocError> {
    let arg = Arg::new(alloc, option.name())
        .long(option.name())
        .value_name(option.value_name())
        .help(option.help());
    match option {
        OrderOption::Dialect => Ok(arg.required(true).value_parser(DIALECTS.as_slice())),
        OrderOption::At => arg.conflicts_with(READ),
        _ => arg.conflicts_with(READ)?.required_unless_present(READ),
    }
}

fn flag<'a>(alloc: Global, name: &'a str, help: &'a str) -> Arg<'a> {
    Arg::new(alloc, name)
        .long(name)
        .help(help)
        .action(ArgAction::SetTrue)
}

/// The command `order`, with its options.
pub fn order_command<'a>(alloc: Global) -> Result<Command<'a>, AllocError> {
    let mut command = Command::new(alloc, "order").about(
        "Writes a leg as an order frame, with | for SOH, and the leg that is read back from it",
    );
    for option in &ORDER_OPTIONS {
        command = command.arg(arg(alloc, *option)?)?;
    }
    let raw = flag(alloc, RAW, "prints the bytes of the frame alone").conflicts_with(READ)?;
    command.after_help(EXAMPLES).arg(raw)?.arg(flag(
        alloc,
        READ,
        "reads a frame on standard input, in that dialect, and prints its leg",
    ))
}

fn value<'a>(matches: &ArgMatches<'a>, option: OrderOption) -> Result<&'a str, CommandFault>
    ensures ok { IfOk result (λ text. matched matches.now option ≡ Some text.now) }
    ensures err { IfErr result (λ fault. fault ≡ CommandFault.NoValue option) }
{
    match matches.get_str(option.name()) {
        Some(text) => Ok(text),
        None => Err(CommandFault::NoValue(option)),
    }
}

/// The dialect that the command line named.
fn dialect_of(matches: &ArgMatches<'_>) -> Result<AnyDialect, CommandFault>
    ensures { MatchResult result (λ dialect. option_and_then dialect_named (matched matches.now OrderOption.Dialect)
        ≡ Some dialect) IsOfWords }
{
    let name = value(matches, OrderOption::Dialect)?;
    AnyDialect::named(name).ok_or(CommandFault::BadValue(OrderOption::Dialect))
}

/// The form that the command line asks for.
fn form_of(matches: &ArgMatches<'_>) -> OrderForm
    ensures raw { flagged matches.now (codes "raw") ≡ Some (codes "true") → result ≡ OrderForm.Raw }
    ensures shown { flagged matches.now (codes "raw") ≡ Some (codes "false") → result ≡ OrderForm.Shown }
{
    if matches.get_flag(RAW) {
        OrderForm::Raw
    } else {
        OrderForm::Shown
    }
}

/// The options that the command line matched, each under its name.
fn options_of<'a>(matches: &ArgMatches<'a>) -> Result<Options<'a>, CommandFault>
    ensures { MatchResult result (AreOptions matches.now) IsOfWords }
{
    Ok(Options {
        dialect: dialect_of(matches)?,
        sweep: value(matches, OrderOption::Sweep)?,
        leg: value(matches, OrderOption::Leg)?,
        symbol: value(matches, OrderOption::Symbol)?,
        side: value(matches, OrderOption::Side)?,
        shares: value(matches, OrderOption::Shares)?,
        price: value(matches, OrderOption::Price)?,
        number: value(matches, OrderOption::Number)?,
        from: value(matches, OrderOption::From)?,
        to: value(matches, OrderOption::To)?,
        at: matches.get_str(OrderOption::At.name()),
        form: form_of(matches),
    })
}

/// What the command line asks for.
fn asked_of<'a>(matches: &ArgMatches<'a>) -> Result<Asked<'a>, CommandFault>
    ensures { MatchResult result (IsAsked matches.now) IsOfWords }
{
    if matches.get_flag(READ) {
        return Ok(Asked::Read(dialect_of(matches)?));
    }
    Ok(Asked::Write(options_of(matches)?))
}

/// What these words ask for. A missing, unknown or repeated option, one that stands beside `--read`, and a dialect that
/// isn't there are faults of the command line.
pub fn read_words<'a, S: AsStr>(alloc: Global, words: &'a [S]) -> Result<Asked<'a>, CommandFault>
    ensures { MatchResult result (λ asked. (matches : ArgMatches) × IsAsked matches asked) IsOfWords }
{
    let command = order_command(alloc)?.bin_name("dispatch order")?;
    let matches = command.try_get_matches_from(words)?;
    asked_of(&matches)
}
