//! What is printed of a rule.
ghost use Rattle.std.specs.Prelude.{◌≡◌, false, IfOk};
ghost use Rattle.day_rules.specs.VenueDay.{breaks};
ghost use Rattle.day_check.specs.Finding.{again_text, finding_head, finding_if, finding_lines, findings_upto};
ghost use Rattle.day_check.specs.Finding.{summary_upto, tally_if, tally_line};
ghost use Rattle.day_check.specs.LogText.{cut_text, uncounted_text};
ghost use Rattle.day_check.specs.Shown.{line_shown};
ghost use Rattle.std.specs.Prelude.{slice_get};

use crate::form::Form;
use crate::json::{Member, Value, json_line};
use crate::rule_words::RuleWords;
use crate::shown::line_shown;
use crate::tallies::breaks;
use log_rules::{Tally, Verdict};
use std::alloc::{AllocError, Global};

/// What is said of a log that ends within a line.
const CUT: &str = "what stands behind the last line feed is no line, and isn't judged";

/// How what is said of a log is printed.
#[derive(Debug, Drop)]
pub struct Printing<'a> {
    /// The path of the log.
    pub log: &'a str,
    /// How its lines are written.
    pub form: &'a Form,
    /// The words of the rules.
    pub words: &'a [RuleWords],
    /// Whether JSON is printed in place of text.
    pub is_json: bool,
    /// Whether it is told what became of each leg.
    pub tells_legs: bool,
    /// Whether each execution is told.
    pub tells_executions: bool,
    /// Whether orders are kept: it is told what became of them, or each execution, or they are judged with the day.
    pub keeps_legs: bool,
}

pub(crate) fn text<'a>(name: &'a str, text: &'a str) -> Member<'a> {
    Member {
        name,
        value: Value::Text(text.as_bytes()),
    }
}

pub(crate) fn number(name: &str, number: u64) -> Member<'_> {
    Member {
        name,
        value: Value::Number(number),
    }
}

/// The rule that the line of a number breaks, before the line itself.
fn finding_head(alloc: Global, words: &RuleWords, number: u64) -> Result<Vec<u8>, AllocError>
    ensures { IfOk result (λ text. text.items ≡ finding_head words.now number) }
{
    let (name, asks, section) = (words.name, words.asks, words.section);
    let text = format!(in alloc; "line {number} {name}: {asks} ({section})\n  ")?;
    Ok(text.into_bytes())
}

/// The rule that a line breaks, the line, and what to do.
fn finding_text(
    alloc: Global,
    words: &RuleWords,
    number: u64,
    line: &[u8],
) -> Result<Vec<u8>, AllocError>
    ensures { IfOk result (λ text. text.items ≡ finding_lines words.now number line.now) }
{
    let mut text = finding_head(alloc, words, number)?;
    text.extend_from_slice(line)?;
    text.extend_from_slice(b"\n  ")?;
    text.extend_from_slice(words.advice.as_bytes())?;
    text.push(b'\n')?;
    Ok(text)
}

/// The rule that a line breaks, and the line, as an object of JSON.
fn finding_json(
    alloc: Global,
    log: &str,
    words: &RuleWords,
    place: u64,
    line: &[u8],
) -> Result<Vec<u8>, AllocError> {
    let members = [
        text("log", log),
        number("line", place),
        text("rule", words.name),
        text("asks", words.asks),
        text("section", words.section),
        Member {
            name: "text",
            value: Value::Text(line),
        },
        text("advice", words.advice),
    ];
    json_line(alloc, &members)
}

/// What is printed of a rule that the line of a number breaks.
fn finding(
    alloc: Global,
    printing: &Printing<'_>,
    words: &RuleWords,
    number: u64,
    line: &[u8],
) -> Result<Vec<u8>, AllocError>
    ensures { IfOk result (λ text. printing.now.is_json ≡ false → text.items
        ≡ finding_lines words.now number (line_shown printing.now.form.now line.now)) }
{
    let shown = line_shown(alloc, printing.form, line)?;
    if printing.is_json {
        return finding_json(alloc, printing.log, words, number, &shown);
    }
    finding_text(alloc, words, number, &shown)
}

/// What is printed of the rule at a place, where the line of a number breaks it.
fn finding_at(
    alloc: Global,
    printing: &Printing<'_>,
    verdicts: &[Verdict; 22],
    place: usize,
    number: u64,
    line: &[u8],
) -> Result<Vec<u8>, AllocError>
    ensures { IfOk result (λ text. printing.now.is_json ≡ false → text.items
        ≡ finding_if printing.now.form.now number line.now (slice_get printing.now.words.now place)
        (breaks verdicts.now place)) }
{
    let words = printing.words;
    let Some(words) = words.get(place) else {
        return Ok(Vec::new(alloc));
    };
    if !breaks(verdicts, place) {
        return Ok(Vec::new(alloc));
    }
    finding(alloc, printing, words, number, line)
}

/// What is printed of the rules that the line of a number breaks.
#[tactic(auto, using(crate::proofs::Upto::one_finding_more))]
pub(crate) fn findings(
    alloc: Global,
    printing: &Printing<'_>,
    verdicts: &[Verdict; 22],
    number: u64,
    line: &[u8],
) -> Result<Vec<u8>, AllocError>
    ensures { IfOk result (λ text. printing.now.is_json ≡ false → text.items
        ≡ findings_upto printing.now.words.now printing.now.form.now number line.now verdicts.now 22) }
{
    let mut text = Vec::new(alloc);
    for place in 0..22 {
        let finding = finding_at(alloc, printing, verdicts, place, number, line)?;
        text.extend_from_slice(&finding)?;
    }
    Ok(text)
}

/// How often a rule was broken again, where it was.
fn again_text(alloc: Global, again: u64) -> Result<Vec<u8>, AllocError>
    ensures { IfOk result (λ text. text.items ≡ again_text again) }
{
    if again == 0 {
        return Ok(Vec::new(alloc));
    }
    Ok(format!(in alloc; " again {again}")?.into_bytes())
}

/// How often the rule of this name was held and broken.
pub(crate) fn tally_line(alloc: Global, name: &str, tally: Tally) -> Result<Vec<u8>, AllocError>
    ensures { IfOk result (λ text. text.items ≡ tally_line name.now tally) }
{
    let Tally {
        held,
        broken,
        again,
    } = tally;
    if held == 0 && broken == 0 && again == 0 {
        return Ok(format!(in alloc; "rule {name} not seen\n")?.into_bytes());
    }
    let mut text = format!(in alloc; "rule {name} held {held} broken {broken}")?.into_bytes();
    text.extend_from_slice(&again_text(alloc, again)?)?;
    text.push(b'\n')?;
    Ok(text)
}

fn tally_json(
    alloc: Global,
    log: &str,
    words: &RuleWords,
    tally: Tally,
) -> Result<Vec<u8>, AllocError> {
    let members = [
        text("log", log),
        text("rule", words.name),
        number("held", tally.held),
        number("broken", tally.broken),
        number("again", tally.again),
    ];
    json_line(alloc, &members)
}

/// What is printed of how often the rule at a place was held and broken.
fn tally_at(
    alloc: Global,
    printing: &Printing<'_>,
    tallies: &[Tally; 22],
    place: usize,
) -> Result<Vec<u8>, AllocError>
    ensures { IfOk result (λ text. printing.now.is_json ≡ false → text.items
        ≡ tally_if (slice_get printing.now.words.now place) (slice_get tallies.now place)) }
{
    let words = printing.words;
    let Some(words) = words.get(place) else {
        return Ok(Vec::new(alloc));
    };
    let Some(tally) = tallies.get(place) else {
        return Ok(Vec::new(alloc));
    };
    if printing.is_json {
        return tally_json(alloc, printing.log, words, *tally);
    }
    tally_line(alloc, words.name, *tally)
}

/// A line for each rule.
#[tactic(auto, using(crate::proofs::Upto::one_tally_more))]
pub(crate) fn summary(
    alloc: Global,
    printing: &Printing<'_>,
    tallies: &[Tally; 22],
) -> Result<Vec<u8>, AllocError>
    ensures { IfOk result (λ text. printing.now.is_json ≡ false → text.items
        ≡ summary_upto printing.now.words.now tallies.now 22) }
{
    let mut text = Vec::new(alloc);
    for place in 0..22 {
        text.extend_from_slice(&tally_at(alloc, printing, tallies, place)?)?;
    }
    Ok(text)
}

/// How many reports weren't counted, where there are some.
pub(crate) fn uncounted_text(
    alloc: Global,
    printing: &Printing<'_>,
    count: usize,
) -> Result<Vec<u8>, AllocError>
    ensures { IfOk result (λ text. printing.now.is_json ≡ false → text.items ≡ uncounted_text count) }
{
    if count == 0 {
        return Ok(Vec::new(alloc));
    }
    if printing.is_json {
        let members = [
            text("log", printing.log),
            number("reports_not_counted", count as u64),
        ];
        return json_line(alloc, &members);
    }
    Ok(format!(in alloc; "reports not counted {count}\n")?.into_bytes())
}

/// A note where a log ends within a line.
pub(crate) fn cut_text(
    alloc: Global,
    printing: &Printing<'_>,
    is_cut: bool,
) -> Result<Vec<u8>, AllocError>
    ensures { IfOk result (λ text. printing.now.is_json ≡ false → text.items ≡ cut_text is_cut) }
{
    if !is_cut {
        return Ok(Vec::new(alloc));
    }
    if printing.is_json {
        let members = [text("log", printing.log), text("note", CUT)];
        return json_line(alloc, &members);
    }
    Ok(format!(in alloc; "note {CUT}\n")?.into_bytes())
}
