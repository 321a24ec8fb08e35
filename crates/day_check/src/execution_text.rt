//! What is printed of an execution.
ghost use Rattle.std.specs.Prelude.{◌≡◌, ◌++◌, ◌∷◌, [], Some, IfOk, OnOk, codes};
ghost use Rattle.desk_executions.specs.Execution.{kind_text, marked};
ghost use Rattle.desk_executions.specs.Words.{field_text};
ghost use Rattle.day_check.specs.ExecutionText.{execution_line, note_shown, said_shown, why_shown, words_shown};

use desk_executions::{IdShown, PriceShown, UnreadText, Untaken, WordsText};
use desk_words::shown;
use dialect::ReportKind;
use log_legs::{Execution, FieldWords, ReportNote, Said, append_logged};
use report_words::FirstWords;
use std::alloc::{AllocError, Global};
use std::fmt;

/// What a report says of its order.
#[derive(Drop)]
struct KindText<'a>(&'a ReportKind);

impl<'a> fmt::Display for KindText<'a> {
    ghost output = { λ kind. Some (kind_text kind.0.now) };

    fn fmt<W: fmt::Write>(&self, f: &mut fmt::Formatter<W>) -> fmt::Result {
        match self.0 {
            ReportKind::New => write!(f, "new"),
            ReportKind::Trade(fill) => {
                let shares = fill.shares();
                let price: PriceShown = shown(fill.px().as_bytes());
                write!(f, "fill {shares} at {price}")
            }
            ReportKind::Canceled => write!(f, "cancelled"),
            ReportKind::Rejected => write!(f, "rejected"),
            ReportKind::Expired => write!(f, "expired"),
            ReportKind::Bust { cancelled_id } => {
                let trade: IdShown = shown(cancelled_id.as_bytes());
                write!(f, "bust of {trade}")
            }
        }
    }
}

/// Appends a report.
fn append_note(alloc: Global, text: &mut Vec<u8>, note: &ReportNote<'_>) -> Result<(), AllocError>
    ensures { OnOk result (text.new.items ≡ text.old.items ++ note_shown note.now) }
{
    append_logged(text, note.id.as_bytes())?;
    let kind = KindText(&note.kind);
    let exec: IdShown = shown(note.exec.as_bytes());
    let said = format!(in alloc; " {kind} id {exec}")?;
    text.extend_from_slice(said.as_bytes())
}

/// Appends a field behind its tag, where a report has it.
fn append_field<const N: usize>(
    alloc: Global,
    text: &mut Vec<u8>,
    tag: u32,
    words: &FirstWords<N>,
) -> Result<(), AllocError>
    ensures { OnOk result (text.new.items ≡ text.old.items ++ field_text tag words.now) }
{
    if words.as_bytes().is_empty() {
        return Ok(());
    }
    let words = WordsText::new(words);
    let field = format!(in alloc; " {tag}={words}")?;
    text.extend_from_slice(field.as_bytes())
}

/// Appends what a report says that can't be read.
fn append_words(alloc: Global, text: &mut Vec<u8>, words: &FieldWords) -> Result<(), AllocError>
    ensures { OnOk result (text.new.items ≡ text.old.items ++ words_shown words.now) }
{
    append_field(alloc, text, 11, &words.id)?;
    append_field(alloc, text, 150, &words.kind)?;
    append_field(alloc, text, 32, &words.shares)?;
    append_field(alloc, text, 31, &words.price)
}

/// Appends what an exchange says of an order.
fn append_said(alloc: Global, text: &mut Vec<u8>, said: &Said<'_>) -> Result<(), AllocError>
    ensures { OnOk result (text.new.items ≡ text.old.items ++ said_shown said.now) }
{
    match said {
        Said::Report(note) => append_note(alloc, text, note),
        Said::Refused(id) => {
            append_logged(text, id.as_bytes())?;
            text.extend_from_slice(b" refused")
        }
        Said::Unread(fault, words) => {
            let fault = UnreadText(*fault);
            let why = format!(in alloc; "{fault}")?;
            text.extend_from_slice(why.as_bytes())?;
            append_words(alloc, text, words)
        }
    }
}

fn booked_line(alloc: Global, said: &Said<'_>) -> Result<Vec<u8>, AllocError>
    ensures { IfOk result (λ text. text.items ≡ codes "execution " ++ said_shown said.now ++ 10 ∷ []) }
{
    let mut text = Vec::new(alloc);
    text.extend_from_slice(b"execution ")?;
    append_said(alloc, &mut text, said)?;
    text.push(b'\n')?;
    Ok(text)
}

/// Appends why an execution isn't taken, and the end of its line.
fn append_why(alloc: Global, text: &mut Vec<u8>, why: Untaken) -> Result<(), AllocError>
    ensures { OnOk result (text.new.items ≡ text.old.items ++ why_shown why) }
{
    let word = format!(in alloc; "{why}")?;
    text.extend_from_slice(b": ")?;
    text.extend_from_slice(word.as_bytes())?;
    text.push(b'\n')?;
    Ok(())
}

fn unbooked_line(alloc: Global, said: &Said<'_>, why: Untaken) -> Result<Vec<u8>, AllocError>
    ensures { IfOk result (λ text. text.items
        ≡ marked (Some why) (codes "execution " ++ said_shown said.now) ++ 10 ∷ []) }
{
    let mut text = Vec::new(alloc);
    text.extend_from_slice(b"unbooked execution ")?;
    append_said(alloc, &mut text, said)?;
    append_why(alloc, &mut text, why)?;
    Ok(text)
}

/// The line of an execution.
pub(crate) fn execution_line(
    alloc: Global,
    execution: &Execution<'_>,
) -> Result<Vec<u8>, AllocError>
    ensures { IfOk result (λ text. text.items ≡ execution_line execution.now) }
{
    match execution.untaken {
        None => booked_line(alloc, &execution.said),
        Some(why) => unbooked_line(alloc, &execution.said, why),
    }
}
