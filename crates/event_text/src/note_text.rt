//! A note and what the book did with it, in words.

ghost use Rattle.std.specs.Prelude.{◌≡◌, ◌++◌, IfOk, Some, string_bytes};
ghost use Rattle.dialect.specs.declared.report.ReportKind.TheVariants.{Trade};
ghost use Rattle.event_text.specs.Noted.{answer_text, head_text, kept_text, kind_text, note_text, noted_text};

use dialect::{DialectFault, Fill, Note, Report, ReportKind};
use share_ledger::Applied;
use std::alloc::{AllocError, Global};
use std::fmt;

/// Why a report can't be read, in words.
#[derive(Clone, Copy)]
struct FaultText(DialectFault);

impl fmt::Display for FaultText {
    ghost use Rattle.event_text.specs.Noted.{fault_text};

    ghost output = { λ fault. Some (fault_text fault.0) };

    fn fmt<W: fmt::Write>(&self, f: &mut fmt::Formatter<W>) -> fmt::Result {
        match self.0 {
            DialectFault::Missing(tag) => write!(f, "V01 missing tag {tag}"),
            DialectFault::Bad(tag) => write!(f, "V02 bad value of tag {tag}"),
            DialectFault::NotMarked => write!(f, "V03 not marked"),
            DialectFault::NotIoc => write!(f, "V04 not immediate or cancel"),
        }
    }
}

/// A text of bytes, and bytes behind them.
pub(crate) fn joined(first: String, next: &[u8]) -> Result<Vec<u8>, AllocError>
    ensures { IfOk result (λ text. text.items ≡ string_bytes first ++ next.now) }
{
    let mut text = first.into_bytes();
    text.extend_from_slice(next)?;
    Ok(text)
}

/// A trade, as `60 shares at 10.25`.
fn fill_text(alloc: Global, fill: &Fill) -> Result<Vec<u8>, AllocError>
    ensures { IfOk result (λ text. text.items ≡ kind_text (Trade fill.now)) }
{
    let shares = fill.shares();
    joined(
        format!(in alloc; "{shares} shares at ")?,
        fill.px().as_bytes(),
    )
}

/// What a report says.
fn kind_text(alloc: Global, kind: &ReportKind) -> Result<Vec<u8>, AllocError>
    ensures { IfOk result (λ text. text.items ≡ kind_text kind.now) }
{
    match kind {
        ReportKind::New => Ok(String::from_str(alloc, "new")?.into_bytes()),
        ReportKind::Trade(fill) => fill_text(alloc, fill),
        ReportKind::Canceled => Ok(String::from_str(alloc, "cancelled")?.into_bytes()),
        ReportKind::Rejected => Ok(String::from_str(alloc, "rejected")?.into_bytes()),
        ReportKind::Expired => Ok(String::from_str(alloc, "expired")?.into_bytes()),
        ReportKind::Bust { cancelled_id } => {
            joined(
                String::from_str(alloc, "bust of ")?,
                cancelled_id.as_bytes(),
            )
        }
    }
}

/// A report on its leg, as `report E2 on S1L1`.
fn head_text(alloc: Global, report: &Report) -> Result<Vec<u8>, AllocError>
    ensures { IfOk result (λ text. text.items ≡ head_text report.now) }
{
    let mut text = joined(String::from_str(alloc, "report ")?, report.exec.as_bytes())?;
    let leg = report.id;
    text.extend_from_slice(format!(in alloc; " on {leg}")?.as_bytes())?;
    Ok(text)
}

/// A report, and what it says behind a word.
fn report_text(alloc: Global, report: &Report, word: &[u8]) -> Result<Vec<u8>, AllocError>
    ensures { IfOk result (λ text. text.items ≡ (head_text report.now ++ word.now) ++ kind_text report.now.kind) }
{
    let mut text = head_text(alloc, report)?;
    text.extend_from_slice(word)?;
    text.extend_from_slice(&kind_text(alloc, &report.kind)?)?;
    Ok(text)
}

/// A note, as `report E2 on S1L1: 60 shares at 10.25`.
fn note_text(alloc: Global, note: &Note) -> Result<Vec<u8>, AllocError>
    ensures { IfOk result (λ text. text.items ≡ note_text note.now) }
{
    match note {
        Note::Report(report) => report_text(alloc, report, b": "),
        Note::Refused(leg) => Ok(format!(in alloc; "refusal of {leg}")?.into_bytes()),
        Note::Unread(fault) => {
            let fault = FaultText(*fault);
            Ok(format!(in alloc; "report that can't be read: {fault}")?.into_bytes())
        }
    }
}

/// What the book did with a note.
fn answer_text(answer: Applied) -> &'static str
    ensures { result.now ≡ answer_text answer }
{
    match answer {
        Applied::Moved => "booked",
        Applied::Duplicate => "a duplicate",
        Applied::Overfill => "an overfill",
        Applied::Stray => "stray",
    }
}

/// A note with the book's answer, as `report E2 on S1L1: 60 shares at 10.25, booked`.
pub(crate) fn noted_text(alloc: Global, note: &Note, answer: Applied) -> Result<Vec<u8>, AllocError>
    ensures { IfOk result (λ text. text.items ≡ noted_text note.now answer) }
{
    let mut text = note_text(alloc, note)?;
    text.extend_from_slice(b", ")?;
    text.extend_from_slice(answer_text(answer).as_bytes())?;
    Ok(text)
}

/// A report that the exchange made, and had no connection to write into.
pub(crate) fn kept_text(alloc: Global, report: &Report) -> Result<Vec<u8>, AllocError>
    ensures { IfOk result (λ text. text.items ≡ kept_text report.now) }
{
    report_text(alloc, report, b" kept: ")
}
