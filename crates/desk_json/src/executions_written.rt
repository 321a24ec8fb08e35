//! Executions, written.

ghost use Rattle.std.specs.Prelude.{◌≡◌, [], ◌++◌, IfOk, OnOk, codes, string_bytes};
ghost use Rattle.json.specs.Print.{quoted};
ghost use Rattle.desk_words.specs.Printable.{shown};
ghost use Rattle.desk_executions.specs.Untaken.{untaken};
ghost use Rattle.desk_json.specs.Executions.{bust_json, execution_json, executions_json, fill_json, kind_json, leg_keys, note_json};
ghost use Rattle.desk_json.specs.Executions.{refused_json, report_json, said_json, unbooked_json, unread_json, untaken_json};
ghost use Rattle.desk_json.specs.Parted.{parted};

use crate::quoted::quoted;
use crate::standing::ExecutionsPage;
use crate::words_written::{write_beside, write_fields};
use desk_executions::{Execution, IdShown, PriceShown, UnbookedCounts, UnreadText, Untaken};
use desk_words::shown;
use dialect::{DialectFault, ExecId, Fill, LastPx, Note, Report, ReportKind};
use leg::LegId;
use report_words::ReportWords;
use std::alloc::{AllocError, Global};

/// The id of a report, as a string of JSON.
fn id_json(alloc: Global, id: &ExecId) -> Result<String, AllocError>
    ensures { IfOk result (λ text. string_bytes text ≡ quoted (shown 256 id.now)) }
{
    let id: IdShown = shown(id.as_bytes());
    quoted(alloc, id.as_str())
}

/// The price of a trade, as a string of JSON.
fn price_json(alloc: Global, price: &LastPx) -> Result<String, AllocError>
    ensures { IfOk result (λ text. string_bytes text ≡ quoted (shown 80 price.now)) }
{
    let price: PriceShown = shown(price.as_bytes());
    quoted(alloc, price.as_str())
}

/// A trade, as it stands in an object.
fn fill_json(alloc: Global, fill: &Fill) -> Result<String, AllocError>
    ensures { IfOk result (λ text. string_bytes text ≡ fill_json fill.now) }
{
    let shares = fill.shares();
    let price = price_json(alloc, fill.px())?;
    format!(in alloc; "\"kind\":\"fill\",\"shares\":{shares},\"price\":{price}")
}

/// That a trade is undone, as it stands in an object.
fn bust_json(alloc: Global, trade: &ExecId) -> Result<String, AllocError>
    ensures { IfOk result (λ text. string_bytes text ≡ bust_json trade.now) }
{
    let trade = id_json(alloc, trade)?;
    format!(in alloc; "\"kind\":\"bust\",\"of\":{trade}")
}

/// What a report says, as it stands in an object.
fn kind_json(alloc: Global, kind: &ReportKind) -> Result<String, AllocError>
    ensures { IfOk result (λ text. string_bytes text ≡ kind_json kind.now) }
{
    match kind {
        ReportKind::New => String::from_str(alloc, "\"kind\":\"new\""),
        ReportKind::Trade(fill) => fill_json(alloc, fill),
        ReportKind::Canceled => String::from_str(alloc, "\"kind\":\"cancelled\""),
        ReportKind::Rejected => String::from_str(alloc, "\"kind\":\"rejected\""),
        ReportKind::Expired => String::from_str(alloc, "\"kind\":\"expired\""),
        ReportKind::Bust { cancelled_id } => bust_json(alloc, cancelled_id),
    }
}

/// Appends a leg, with the number of its sweep.
fn write_leg(text: &mut String, leg: &LegId) -> Result<(), AllocError>
    ensures { OnOk result (string_bytes text.new ≡ string_bytes text.old ++ leg_keys leg.now) }
{
    let sweep = leg.sweep();
    write!(text, "\"sweep\":{sweep}")?;
    write!(text, ",\"leg\":\"{leg}\",")
}

/// Appends a report.
fn write_report(alloc: Global, text: &mut String, report: &Report) -> Result<(), AllocError>
    ensures { OnOk result (string_bytes text.new ≡ string_bytes text.old ++ report_json report.now) }
{
    let kind = kind_json(alloc, &report.kind)?;
    let exec = id_json(alloc, &report.exec)?;
    write_leg(text, &report.id)?;
    text.push_str(kind.as_str())?;
    write!(text, ",\"exec\":{exec}")
}

/// Appends that the order of a leg was refused.
fn write_refused(text: &mut String, leg: &LegId) -> Result<(), AllocError>
    ensures { OnOk result (string_bytes text.new ≡ string_bytes text.old ++ refused_json leg.now) }
{
    write_leg(text, leg)?;
    write!(text, "\"kind\":\"refused\"")
}

/// Appends that a report can't be read, and why, with what it says of its order.
fn write_unread(
    alloc: Global,
    text: &mut String,
    fault: DialectFault,
    words: &ReportWords,
) -> Result<(), AllocError>
    ensures { OnOk result (string_bytes text.new ≡ string_bytes text.old ++ unread_json fault words.now) }
{
    let fault = UnreadText(fault);
    write!(text, "\"kind\":\"unread\",\"fault\":\"{fault}\"")?;
    write_fields(alloc, text, words)
}

/// Appends what an exchange said.
fn write_note(
    alloc: Global,
    text: &mut String,
    note: &Note,
    words: &ReportWords,
) -> Result<(), AllocError>
    ensures { OnOk result (string_bytes text.new ≡ string_bytes text.old ++ note_json note.now words.now) }
{
    match note {
        Note::Report(report) => write_report(alloc, text, report),
        Note::Refused(leg) => write_refused(text, leg),
        Note::Unread(fault) => write_unread(alloc, text, *fault, words),
    }
}

/// Appends what an exchange said, and what it says beside it.
fn write_said(
    alloc: Global,
    text: &mut String,
    note: &Note,
    words: &ReportWords,
) -> Result<(), AllocError>
    ensures { OnOk result (string_bytes text.new ≡ string_bytes text.old ++ said_json note.now words.now) }
{
    write_note(alloc, text, note, words)?;
    write_beside(alloc, text, words)
}

/// Appends why the book didn't take what was said, if it didn't.
fn write_untaken(text: &mut String, why: Option<Untaken>) -> Result<(), AllocError>
    ensures { OnOk result (string_bytes text.new ≡ string_bytes text.old ++ untaken_json why) }
{
    match why {
        None => Ok(()),
        Some(why) => write!(text, ",\"unbooked\":\"{why}\""),
    }
}

/// Appends an execution behind a mark.
fn write_execution(
    alloc: Global,
    text: &mut String,
    mark: &str,
    execution: &Execution,
) -> Result<(), AllocError>
    ensures { OnOk result (string_bytes text.new ≡ string_bytes text.old ++ mark.now ++ execution_json execution.now) }
{
    let number = execution.number;
    let venue = &execution.venue;
    write!(text, "{mark}{{\"execution\":{number}")?;
    write!(text, ",\"venue\":\"{venue}\",")?;
    write_said(alloc, text, &execution.note, &execution.words)?;
    write_untaken(text, execution.untaken())?;
    write!(text, "}}")
}

/// An execution, as `{"execution":2,"venue":"NYSE","sweep":1,"leg":"S1L1","kind":"fill",..}`. The only refusal is out
/// of memory.
pub fn execution_json(alloc: Global, execution: &Execution) -> Result<String, AllocError>
    ensures { IfOk result (λ text. string_bytes text ≡ execution_json execution.now) }
{
    let mut text = String::new(alloc);
    write_execution(alloc, &mut text, "", execution)?;
    Ok(text)
}

/// Appends executions, parted by commas.
fn write_executions(
    alloc: Global,
    text: &mut String,
    executions: &[Execution],
) -> Result<(), AllocError>
    ensures { OnOk result (string_bytes text.new ≡ string_bytes text.old ++ parted execution_json [] executions.now) }
{
    let mut mark = "";
    for execution in executions {
        write_execution(alloc, text, mark, execution)?;
        mark = ",";
    }
    Ok(())
}

/// Some executions with the number of the last one, as `{"executions":[..],"last":5}`. The only refusal is out of
/// memory.
pub fn executions_json(alloc: Global, page: &ExecutionsPage) -> Result<String, AllocError>
    ensures { IfOk result (λ text. string_bytes text ≡ executions_json page.now) }
{
    let last = page.last;
    let mut text = String::from_str(alloc, "{\"executions\":[")?;
    write_executions(alloc, &mut text, page.executions.as_slice())?;
    write!(&mut text, "],\"last\":{last}}}")?;
    Ok(text)
}

/// Appends how many notes of a venue weren't taken.
pub(crate) fn write_unbooked(text: &mut String, counts: &UnbookedCounts) -> Result<(), AllocError>
    ensures { OnOk result (string_bytes text.new ≡ string_bytes text.old ++ unbooked_json counts.now) }
{
    let UnbookedCounts {
        duplicates,
        overfills,
        strays,
        unread,
    } = *counts;
    write!(
        text,
        "{{\"duplicate\":{duplicates},\"overfill\":{overfills},\"stray\":{strays},\"unread\":{unread}}}"
    )
}

/// How many notes of a venue weren't taken, as `{"duplicate":0,"overfill":1,"stray":2,"unread":0}`. The only refusal is
/// out of memory.
pub fn unbooked_json(alloc: Global, counts: &UnbookedCounts) -> Result<String, AllocError>
    ensures { IfOk result (λ text. string_bytes text ≡ unbooked_json counts.now) }
{
    let mut text = String::new(alloc);
    write_unbooked(&mut text, counts)?;
    Ok(text)
}
