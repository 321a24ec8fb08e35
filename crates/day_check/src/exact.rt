//! A log is held against what the session itself writes.

ghost use Rattle.std.specs.Prelude.{◌≡◌, false, IfOk};
ghost use Rattle.day_check.specs.Exact.{HoldsExactly, advice_on, difference_line, difference_text, exact_tally};
ghost use Rattle.day_check.specs.Exact.{said_text, written_instead};

use crate::fault::LogFault;
use crate::finding::{Printing, number, tally_line, text};
use crate::input::{read_text, without_end};
use crate::json::{Member, Value, json_line};
use command_line::print;
use dialect::AnyDialect;
use log_head::Head;
use log_legs::append_logged;
use log_rules::Tally;
use log_text::{is_passed_over, read_line};
use message_log::Direction;
use session_trace::{Difference, Differs, Shown, explain};
use std::alloc::{AllocError, Global};
use std::io::{BufRead, Write};
use venue_words::{VenueDialect, VenueWords};

/// The rule's name.
const EXACT: &str = "exact";

/// In which dialect a log's session spells its orders.
#[derive(Clone, Copy, Debug)]
pub enum DialectBy {
    /// In this one.
    Name(AnyDialect),
    /// In the one that the line at the log's head names.
    Head,
}

/// What the lines of a log show, each with its number, and what its head says of its dialect.
#[derive(Drop)]
struct ShownLog {
    lines: Vec<Shown>,
    numbers: Vec<u64>,
    head: Head,
}

/// What the rule says of a log: how many frames were what the session writes, and the first line that isn't, with what
/// the session writes there.
#[derive(Drop)]
struct Said {
    held: u64,
    broken: Option<(u64, Vec<u8>)>,
}

impl ShownLog {
    /// One more line, of this number.
    fn push(&mut self, line: Shown, number: u64) -> Result<(), AllocError> {
        self.lines.push(line)?;
        self.numbers.push(number)?;
        Ok(())
    }

    /// Reads a line of this number.
    fn read(&mut self, alloc: Global, number: u64, line: &[u8]) -> Result<(), LogFault> {
        if is_passed_over(line) {
            if self.lines.is_empty() {
                self.head.read(number, line);
            }
            return Ok(());
        }
        let mut message = Vec::new(alloc);
        let shown = match read_line(line, &mut message) {
            Ok(said) => match said.direction {
                Direction::Sent => Shown::Sent(message),
                Direction::Received => Shown::Received(message),
            },
            Err(fault) => return Err(LogFault::of_line(number, fault)),
        };
        self.push(shown, number)?;
        Ok(())
    }

    /// The dialect of its orders.
    fn dialect(&self, by: DialectBy) -> Result<VenueDialect, LogFault> {
        match by {
            DialectBy::Name(dialect) => Ok(VenueWords::Preset(dialect).dialect()),
            DialectBy::Head => self.head.dialect().ok_or(LogFault::NoDialect),
        }
    }

    /// How many of the first lines show what was sent.
    fn sent_before(&self, place: usize) -> u64 {
        let sent = self
            .lines
            .iter()
            .take(place)
            .filter(|line| matches!(line, Shown::Sent(_)))
            .count();
        sent as u64
    }
}

/// Reads the lines of a log.
fn read_shown<R: BufRead>(alloc: Global, input: &mut R) -> Result<ShownLog, LogFault> {
    let mut log = ShownLog {
        lines: Vec::new(alloc),
        numbers: Vec::new(alloc),
        head: Head::new(),
    };
    let mut line = Vec::new(alloc);
    for number in 1..u64::MAX {
        if !read_text(input, &mut line)? {
            return Ok(log);
        }
        log.read(alloc, number, without_end(&line))?;
    }
    Err(LogFault::ReadFailed)
}

/// What is said of a log that differs.
fn said_of(alloc: Global, log: &ShownLog, differs: Differs) -> Result<Said, LogFault> {
    let Differs { place, why } = differs;
    let held = log.sent_before(place);
    let frame = match why {
        Difference::Writes(frame) => frame,
        Difference::Nothing => Vec::new(alloc),
        Difference::NothingSent => return Ok(Said { held, broken: None }),
        Difference::OutOfMemory => return Err(LogFault::OutOfMemory),
    };
    let number = match log.numbers.get(place) {
        Some(number) => *number,
        None => 0,
    };
    Ok(Said {
        held,
        broken: Some((number, frame)),
    })
}

/// Explains a log.
fn judge_exactly(alloc: Global, dialect: &VenueDialect, log: &ShownLog) -> Result<Said, LogFault> {
    match explain(alloc, dialect, log.lines.as_slice()) {
        Ok(()) => Ok(Said {
            held: log.sent_before(log.lines.len()),
            broken: None,
        }),
        Err(differs) => said_of(alloc, log, differs),
    }
}

/// What to do where the session writes another frame in the place of a line.
const CHANGED: &str =
    "find what lost or changed a line of this log; if nothing did, stop the desk and report it with the log";

/// What to do where it writes nothing there.
const NOTHING: &str =
    "name the dialect of the venue's orders with --exact; if it is this one, find what changed the log";

/// What to do where the session writes this frame in the place of a line, or nothing.
fn advice_on(logged: &[u8]) -> &'static str
    ensures { result.now ≡ advice_on logged.now }
{
    if logged.is_empty() { NOTHING } else { CHANGED }
}

/// What the session writes in the place of a line, as it is logged; as an object of JSON.
fn difference_json(
    alloc: Global,
    log: &str,
    place: u64,
    logged: &[u8],
) -> Result<Vec<u8>, AllocError> {
    let members = [
        text("log", log),
        number("line", place),
        text("rule", EXACT),
        Member {
            name: "writes",
            value: Value::Text(logged),
        },
        text("advice", advice_on(logged)),
    ];
    json_line(alloc, &members)
}

/// What the session writes in the place of a line, as it is logged.
fn written_instead(alloc: Global, place: u64, logged: &[u8]) -> Result<Vec<u8>, AllocError>
    ensures { IfOk result (λ text. text.items ≡ written_instead place logged.now) }
{
    if logged.is_empty() {
        let line = format!(in alloc;
            "line {place} exact: the session writes nothing, or the dialect is another"
        )?;
        return Ok(line.into_bytes());
    }
    let mut line = format!(in alloc; "line {place} exact: the session writes ")?.into_bytes();
    line.extend_from_slice(logged)?;
    Ok(line)
}

/// What the session writes in the place of a line, as it is logged, and what to do.
fn difference_line(alloc: Global, place: u64, logged: &[u8]) -> Result<Vec<u8>, AllocError>
    ensures { IfOk result (λ text. text.items ≡ difference_line place logged.now) }
{
    let mut line = written_instead(alloc, place, logged)?;
    line.extend_from_slice(b"\n  ")?;
    line.extend_from_slice(advice_on(logged).as_bytes())?;
    line.push(b'\n')?;
    Ok(line)
}

/// What the session writes in the place of a line.
fn difference_text(
    alloc: Global,
    printing: &Printing<'_>,
    place: u64,
    frame: &[u8],
) -> Result<Vec<u8>, AllocError>
    ensures { IfOk result (λ text. printing.now.is_json ≡ false → text.items ≡ difference_text place frame.now) }
{
    let mut logged = Vec::new(alloc);
    append_logged(&mut logged, frame)?;
    if printing.is_json {
        return difference_json(alloc, printing.log, place, &logged);
    }
    difference_line(alloc, place, &logged)
}

/// How many frames are what the session writes, and whether one isn't.
fn tally_text(
    alloc: Global,
    printing: &Printing<'_>,
    held: u64,
    broken: u64,
) -> Result<Vec<u8>, AllocError>
    ensures { IfOk result (λ text. printing.now.is_json ≡ false → text.items ≡ exact_tally held broken) }
{
    if printing.is_json {
        let members = [
            text("log", printing.log),
            text("rule", EXACT),
            number("held", held),
            number("broken", broken),
        ];
        return json_line(alloc, &members);
    }
    tally_line(
        alloc,
        EXACT,
        Tally {
            held,
            broken,
            again: 0,
        },
    )
}

/// What is printed of a log that was explained or not.
fn said_text(alloc: Global, printing: &Printing<'_>, said: &Said) -> Result<Vec<u8>, AllocError>
    ensures { IfOk result (λ text. printing.now.is_json ≡ false → text.items ≡ said_text said.now) }
{
    match &said.broken {
        None => tally_text(alloc, printing, said.held, 0),
        Some((place, frame)) => {
            let mut text = difference_text(alloc, printing, *place, frame)?;
            text.extend_from_slice(&tally_text(alloc, printing, said.held, 1)?)?;
            Ok(text)
        }
    }
}

/// Prints the first line of a log that isn't what the session writes, if there is one, and how many are. The answer is
/// whether there is one.
pub fn print_exact<R: BufRead, W: Write>(
    alloc: Global,
    printing: &Printing<'_>,
    by: DialectBy,
    input: &mut R,
    out: &mut W,
) -> Result<bool, LogFault>
    ensures { IfOk result (HoldsExactly printing.now (W.contents out.old) (W.contents out.new)) }
{
    let log = read_shown(alloc, input)?;
    let dialect = log.dialect(by)?;
    let said = judge_exactly(alloc, &dialect, &log)?;
    let text = said_text(alloc, printing, &said)?;
    print(&text, out)?;
    Ok(said.broken.is_some())
}
