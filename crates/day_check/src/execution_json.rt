//! An execution as a line of JSON.
ghost use Rattle.std.specs.Prelude.{◌≡◌, ◌++◌, IfOk, OnOk, codes};
ghost use Rattle.day_check.specs.ExecutionJson.{bust_json, execution_json, why_json, fields_json, kind_json};
ghost use Rattle.day_check.specs.ExecutionJson.{note_json, number_after, refused_json, said_json};
ghost use Rattle.day_check.specs.ExecutionJson.{text_after, unread_json, untaken_json, words_json};
ghost use Rattle.message_log.specs.Line.{logged};

use crate::json::{append_number, append_string};
use crate::told_fault::append_text_member;
use desk_executions::{IdShown, PriceShown, UnreadText, Untaken, WordsText};
use desk_words::shown;
use dialect::{DialectFault, ExecId, ReportKind};
use log_legs::{Execution, FieldWords, ReportNote, Said, append_logged};
use report_words::FirstWords;
use std::alloc::{AllocError, Global};

fn append_text_after(line: &mut Vec<u8>, name: &str, said: &str) -> Result<(), AllocError>
    ensures { OnOk result (line.new.items ≡ line.old.items ++ text_after name.now said.now) }
{
    line.push(b',')?;
    append_text_member(line, name, said)
}

fn append_number_after(line: &mut Vec<u8>, name: &str, number: u64) -> Result<(), AllocError>
    ensures { OnOk result (line.new.items ≡ line.old.items ++ number_after name.now number) }
{
    line.push(b',')?;
    append_string(line, name.as_bytes())?;
    line.push(b':')?;
    append_number(line, number)
}

/// Appends the ClOrdID (11) of an order.
fn append_leg(alloc: Global, line: &mut Vec<u8>, id: &[u8]) -> Result<(), AllocError>
    ensures { OnOk result (line.new.items ≡ line.old.items ++ text_after (codes "leg") (logged id.now)) }
{
    let mut text = Vec::new(alloc);
    append_logged(&mut text, id)?;
    line.push(b',')?;
    append_string(line, b"leg")?;
    line.push(b':')?;
    append_string(line, &text)
}

/// Appends that the trade of a report is undone.
fn append_bust(line: &mut Vec<u8>, undone: &ExecId) -> Result<(), AllocError>
    ensures { OnOk result (line.new.items ≡ line.old.items ++ bust_json undone.now) }
{
    let undone: IdShown = shown(undone.as_bytes());
    append_text_after(line, "kind", "bust")?;
    append_text_after(line, "of", undone.as_str())
}

/// Appends what happened.
fn append_kind(line: &mut Vec<u8>, kind: &ReportKind) -> Result<(), AllocError>
    ensures { OnOk result (line.new.items ≡ line.old.items ++ kind_json kind.now) }
{
    match kind {
        ReportKind::New => append_text_after(line, "kind", "new"),
        ReportKind::Trade(fill) => {
            let price: PriceShown = shown(fill.px().as_bytes());
            append_text_after(line, "kind", "fill")?;
            append_number_after(line, "shares", fill.shares())?;
            append_text_after(line, "price", price.as_str())
        }
        ReportKind::Canceled => append_text_after(line, "kind", "cancelled"),
        ReportKind::Rejected => append_text_after(line, "kind", "rejected"),
        ReportKind::Expired => append_text_after(line, "kind", "expired"),
        ReportKind::Bust { cancelled_id } => append_bust(line, cancelled_id),
    }
}

fn append_note(alloc: Global, line: &mut Vec<u8>, note: &ReportNote<'_>) -> Result<(), AllocError>
    ensures { OnOk result (line.new.items ≡ line.old.items ++ note_json note.now) }
{
    let exec: IdShown = shown(note.exec.as_bytes());
    append_leg(alloc, line, note.id.as_bytes())?;
    append_kind(line, &note.kind)?;
    append_text_after(line, "exec", exec.as_str())
}

fn append_refused(alloc: Global, line: &mut Vec<u8>, id: &[u8]) -> Result<(), AllocError>
    ensures { OnOk result (line.new.items ≡ line.old.items ++ refused_json id.now) }
{
    append_leg(alloc, line, id)?;
    append_text_after(line, "kind", "refused")
}

/// Appends what a field says, where it is there.
fn append_words<const N: usize>(
    alloc: Global,
    line: &mut Vec<u8>,
    name: &str,
    words: &FirstWords<N>,
) -> Result<(), AllocError>
    ensures { OnOk result (line.new.items ≡ line.old.items ++ words_json name.now words.now) }
{
    if words.as_bytes().is_empty() {
        return Ok(());
    }
    let words = WordsText::new(words);
    let text = format!(in alloc; "{words}")?;
    append_text_after(line, name, text.as_str())
}

fn append_fault(alloc: Global, line: &mut Vec<u8>, fault: DialectFault) -> Result<(), AllocError>
    ensures { OnOk result (line.new.items ≡ line.old.items ++ why_json fault) }
{
    let fault = UnreadText(fault);
    let why = format!(in alloc; "{fault}")?;
    append_text_after(line, "fault", why.as_str())
}

/// Appends what a report that can't be read says of its order.
#[tactic(auto, unfolding(crate::specs::ExecutionJson::fields_json))]
fn append_fields(alloc: Global, line: &mut Vec<u8>, words: &FieldWords) -> Result<(), AllocError>
    ensures { OnOk result (line.new.items ≡ line.old.items ++ fields_json words.now) }
{
    append_words(alloc, line, "tag_11", &words.id)?;
    append_words(alloc, line, "tag_150", &words.kind)?;
    append_words(alloc, line, "tag_32", &words.shares)?;
    append_words(alloc, line, "tag_31", &words.price)
}

#[tactic(auto, unfolding(crate::specs::ExecutionJson::unread_json))]
fn append_unread(
    alloc: Global,
    line: &mut Vec<u8>,
    fault: DialectFault,
    words: &FieldWords,
) -> Result<(), AllocError>
    ensures { OnOk result (line.new.items ≡ line.old.items ++ unread_json fault words.now) }
{
    append_text_after(line, "kind", "unread")?;
    append_fault(alloc, line, fault)?;
    append_fields(alloc, line, words)
}

fn append_said(alloc: Global, line: &mut Vec<u8>, said: &Said<'_>) -> Result<(), AllocError>
    ensures { OnOk result (line.new.items ≡ line.old.items ++ said_json said.now) }
{
    match said {
        Said::Report(note) => append_note(alloc, line, note),
        Said::Refused(id) => append_refused(alloc, line, id.as_bytes()),
        Said::Unread(fault, words) => append_unread(alloc, line, *fault, words),
    }
}

fn append_untaken(
    alloc: Global,
    line: &mut Vec<u8>,
    untaken: Option<Untaken>,
) -> Result<(), AllocError>
    ensures { OnOk result (line.new.items ≡ line.old.items ++ untaken_json untaken) }
{
    match untaken {
        None => Ok(()),
        Some(why) => {
            let why = format!(in alloc; "{why}")?;
            append_text_after(line, "unbooked", why.as_str())
        }
    }
}

/// An execution in the line of this number of the log at this path, as an object of JSON in a line.
pub(crate) fn execution_json(
    alloc: Global,
    log: &str,
    number: u64,
    execution: &Execution<'_>,
) -> Result<Vec<u8>, AllocError>
    ensures { IfOk result (λ line. line.items ≡ execution_json log.now number execution.now) }
{
    let mut line = Vec::new(alloc);
    line.push(b'{')?;
    append_text_member(&mut line, "log", log)?;
    append_number_after(&mut line, "line", number)?;
    append_said(alloc, &mut line, &execution.said)?;
    append_untaken(alloc, &mut line, execution.untaken)?;
    line.extend_from_slice(b"}\n")?;
    Ok(line)
}
