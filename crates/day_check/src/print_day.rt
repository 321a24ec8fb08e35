//! What is printed of a day.

ghost use Rattle.std.specs.Prelude.{◌≡◌, ◌<◌, false, IfOk, OnOk};
ghost use Rattle.std.specs.Io.KnownBytes.{Appends};
ghost use Rattle.day_rules.specs.Sweeps.{sweep_sums};
ghost use Rattle.log_legs.specs.LegLine.{sweep_line};
ghost use Rattle.day_check.specs.DayText.{broken_lines, line_of_sums, sweeps_text, verdict_line};
ghost use Rattle.day_check.specs.Shown.{line_shown};

use crate::fault::LogFault;
use crate::finding::{Printing, number, text};
use crate::json::{Member, Value, json_line};
use crate::legs_json::sweep_json;
use crate::shown::line_shown;
use command_line::print;
use day_rules::{DeskDay, Sentence, VenueDay, sweep_sums};
use desk_news::SweepParts;
use log_legs::SweepTotals;
use std::alloc::{AllocError, Global};
use std::io::Write;

/// What is printed of the sweep of a number, and what became of it by the logs of all venues.
fn sweep_line(
    alloc: Global,
    printing: &Printing<'_>,
    sweep: u64,
    sums: &SweepTotals,
) -> Result<Vec<u8>, AllocError>
    ensures { IfOk result (λ text. printing.now.is_json ≡ false → text.items ≡ sweep_line sweep sums.now) }
{
    if printing.is_json {
        return sweep_json(alloc, printing.log, sweep, sums);
    }
    let parts = SweepParts {
        sweep,
        shares: sums.shares,
        totals: sums.totals,
    };
    Ok(format!(in alloc; "{parts}\n")?.into_bytes())
}

/// What is printed of the sweep at a place, of those that were placed.
fn sweep_at(
    alloc: Global,
    printing: &Printing<'_>,
    desk: &DeskDay,
    venues: &[VenueDay],
    place: usize,
) -> Result<Vec<u8>, AllocError>
    requires { place < 18446744073709551615 }
    ensures { IfOk result (λ text. printing.now.is_json ≡ false → text.items
        ≡ line_of_sums place (sweep_sums venues.now desk.now.intake.sweeps place)) }
{
    match sweep_sums(venues, desk.sweeps(), place) {
        Some(sums) => sweep_line(alloc, printing, place as u64 + 1, &sums),
        None => Ok(Vec::new(alloc)),
    }
}

/// What is printed of the sweeps that were placed.
#[tactic(auto, using(crate::proofs::Upto::one_sweep_more))]
fn sweeps_text(
    alloc: Global,
    printing: &Printing<'_>,
    desk: &DeskDay,
    venues: &[VenueDay],
) -> Result<Vec<u8>, AllocError>
    ensures { IfOk result (λ text. printing.now.is_json ≡ false → text.items ≡ sweeps_text venues.now desk.now) }
{
    let mut text = Vec::new(alloc);
    for place in 0..desk.sweeps().len() {
        text.extend_from_slice(&sweep_at(alloc, printing, desk, venues, place)?)?;
    }
    Ok(text)
}

/// Prints what became of each sweep that was placed.
pub fn print_sweeps<W: Write>(
    alloc: Global,
    printing: &Printing<'_>,
    desk: &DeskDay,
    venues: &[VenueDay],
    out: &mut W,
) -> Result<(), LogFault>
    ensures { OnOk result (printing.now.is_json ≡ false
        → Appends (W.contents out.old) (W.contents out.new) (sweeps_text venues.now desk.now)) }
{
    let text = sweeps_text(alloc, printing, desk, venues)?;
    print(&text, out)?;
    Ok(())
}

/// A line of a log, by its number, from 1.
#[derive(Clone, Copy, Debug, PartialEq, Eq)]
pub struct LinePlace<'a> {
    pub path: &'a str,
    pub line: u64,
}

/// A sentence that a line breaks, the line, and what to do, as an object of JSON.
fn broken_json(
    alloc: Global,
    sentence: Sentence,
    place: &LinePlace<'_>,
    line: &[u8],
) -> Result<Vec<u8>, AllocError> {
    let members = [
        text("log", place.path),
        text("sentence", sentence.name()),
        text("verdict", "broken"),
        number("line", place.line),
        text("says", sentence.text()),
        Member {
            name: "text",
            value: Value::Text(line),
        },
        text("advice", sentence.advice()),
    ];
    json_line(alloc, &members)
}

/// A sentence that a line breaks, the line, and what to do.
fn broken_text(
    alloc: Global,
    sentence: Sentence,
    place: &LinePlace<'_>,
    line: &[u8],
) -> Result<Vec<u8>, AllocError>
    ensures { IfOk result (λ text. text.items ≡ broken_lines sentence place.now.path.now place.now.line line.now) }
{
    let (name, says, path, number) = (sentence.name(), sentence.text(), place.path, place.line);
    let head = format!(in alloc; "sentence {name} broken {path} line {number}: {says}\n  ")?;
    let mut text = head.into_bytes();
    text.extend_from_slice(line)?;
    text.extend_from_slice(b"\n  ")?;
    text.extend_from_slice(sentence.advice().as_bytes())?;
    text.push(b'\n')?;
    Ok(text)
}

/// What is printed of a sentence that no line breaks, with its verdict in words.
pub fn verdict_text(
    alloc: Global,
    printing: &Printing<'_>,
    sentence: Sentence,
    verdict: &str,
) -> Result<Vec<u8>, AllocError>
    ensures { IfOk result (λ text. printing.now.is_json ≡ false → text.items ≡ verdict_line sentence verdict.now) }
{
    let name = sentence.name();
    if printing.is_json {
        let members = [
            text("log", printing.log),
            text("sentence", name),
            text("verdict", verdict),
        ];
        return json_line(alloc, &members);
    }
    Ok(format!(in alloc; "sentence {name} {verdict}\n")?.into_bytes())
}

/// What is printed of a sentence that this line breaks.
pub fn broken_sentence(
    alloc: Global,
    printing: &Printing<'_>,
    sentence: Sentence,
    place: &LinePlace<'_>,
    line: &[u8],
) -> Result<Vec<u8>, AllocError>
    ensures { IfOk result (λ text. printing.now.is_json ≡ false → text.items
        ≡ broken_lines sentence place.now.path.now place.now.line (line_shown printing.now.form.now line.now)) }
{
    let shown = line_shown(alloc, printing.form, line)?;
    if printing.is_json {
        return broken_json(alloc, sentence, place, &shown);
    }
    broken_text(alloc, sentence, place, &shown)
}
