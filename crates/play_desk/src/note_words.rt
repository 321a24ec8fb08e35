//! Notes of a venue, by their words.

use case_text::{PlayFault, number};
use dialect::{DialectFault, ExecId, Fill, LastPx, Note, Plain, Report, ReportKind, Spelling};
use leg::LegId;

/// The id of a leg, as `S1L2`.
pub fn leg_id(word: &str) -> Result<LegId, PlayFault> {
    Plain
        .read_id(word.as_bytes())
        .ok_or(PlayFault::NotUnderstood)
}

fn exec_id(word: &str) -> Result<ExecId, PlayFault> {
    ExecId::new(word.as_bytes()).ok_or(PlayFault::NotUnderstood)
}

fn fill_of(shares: &str, px: &str) -> Result<Fill, PlayFault> {
    let shares = number(shares)?;
    let px = LastPx::new(px.as_bytes()).ok_or(PlayFault::NotUnderstood)?;
    Fill::new(shares, px).ok_or(PlayFault::NotUnderstood)
}

/// What happened to an order, as `trade 60 at 10.25`.
fn kind_of(words: &[&str]) -> Result<ReportKind, PlayFault> {
    match words {
        ["new"] => Ok(ReportKind::New),
        ["trade", shares, "at", px] => Ok(ReportKind::Trade(fill_of(shares, px)?)),
        ["canceled"] => Ok(ReportKind::Canceled),
        ["rejected"] => Ok(ReportKind::Rejected),
        ["expired"] => Ok(ReportKind::Expired),
        ["bust", exec] => Ok(ReportKind::Bust {
            cancelled_id: exec_id(exec)?,
        }),
        _ => Err(PlayFault::NotUnderstood),
    }
}

fn report_of(id: &str, exec: &str, kind: &[&str]) -> Result<Report, PlayFault> {
    let id = leg_id(id)?;
    let kind = kind_of(kind)?;
    let exec = exec_id(exec)?;
    Ok(Report { id, exec, kind })
}

/// The note of these words: `report S1L1 E1 new`, `refused S1L1`, or `unread`.
pub fn note_of(words: &[&str]) -> Result<Note, PlayFault> {
    match words {
        ["report", id, exec, kind @ ..] => Ok(Note::Report(report_of(id, exec, kind)?)),
        ["refused", id] => Ok(Note::Refused(leg_id(id)?)),
        ["unread"] => Ok(Note::Unread(DialectFault::NotMarked)),
        _ => Err(PlayFault::NotUnderstood),
    }
}
