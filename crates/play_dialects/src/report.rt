//! Reports in a dialect, in the words `E2 trade 60 10.25`.

use crate::leg_text::leg_in;
use crate::order::{answer_written, begun};
use case_text::{Answers, PlayFault, bytes_of, number, shown};
use dialect::{AnyDialect, Dialect, ExecId, Fill, LastPx, OrderId, OrderView, Report, ReportKind};
use fix_tags::AppFields;
use fix_text::{Frame, Place};
use leg::LegId;
use std::alloc::{AllocError, Global};

fn exec_id(alloc: Global, word: &str) -> Result<ExecId, PlayFault> {
    ExecId::new(&bytes_of(alloc, word)?).ok_or(PlayFault::NotUnderstood)
}

/// A trade of this price, if its shares are in range.
fn fill_in(alloc: Global, shares: &str, px: &str) -> Result<Option<Fill>, PlayFault> {
    let px = LastPx::new(&bytes_of(alloc, px)?).ok_or(PlayFault::NotUnderstood)?;
    Ok(Fill::new(number(shares)?, px))
}

/// Answers whether there is such a trade.
pub fn answer_trade(
    alloc: Global,
    shares: &str,
    px: &str,
    answers: &mut Answers,
) -> Result<(), PlayFault> {
    match fill_in(alloc, shares, px)? {
        Some(fill) => {
            let px = shown(alloc, fill.px().as_bytes())?;
            answers.say(&format!(in alloc; "{} {px}", fill.shares())?)
        }
        None => answers.say("none"),
    }
}

/// What happened to an order.
fn kind_in(alloc: Global, words: &[&str]) -> Result<ReportKind, PlayFault> {
    match words {
        ["new"] => Ok(ReportKind::New),
        ["trade", shares, px] => {
            let fill = fill_in(alloc, shares, px)?.ok_or(PlayFault::NotUnderstood)?;
            Ok(ReportKind::Trade(fill))
        }
        ["canceled"] => Ok(ReportKind::Canceled),
        ["rejected"] => Ok(ReportKind::Rejected),
        ["expired"] => Ok(ReportKind::Expired),
        ["bust", id] => Ok(ReportKind::Bust {
            cancelled_id: exec_id(alloc, id)?,
        }),
        _ => Err(PlayFault::NotUnderstood),
    }
}

/// The id and the kind of a report.
pub fn exec_and_kind(alloc: Global, words: &[&str]) -> Result<(ExecId, ReportKind), PlayFault> {
    let [exec, kind @ ..] = words else {
        return Err(PlayFault::NotUnderstood);
    };
    Ok((exec_id(alloc, exec)?, kind_in(alloc, kind)?))
}

/// A report in its words, behind the number of its leg.
pub fn report_text(alloc: Global, report: &Report) -> Result<String, AllocError> {
    let id: LegId = report.id;
    let exec = shown(alloc, report.exec.as_bytes())?;
    match &report.kind {
        ReportKind::New => format!(in alloc; "{id} {exec} new"),
        ReportKind::Trade(fill) => {
            let shares = fill.shares();
            let px = shown(alloc, fill.px().as_bytes())?;
            format!(in alloc; "{id} {exec} trade {shares} {px}")
        }
        ReportKind::Canceled => format!(in alloc; "{id} {exec} canceled"),
        ReportKind::Rejected => format!(in alloc; "{id} {exec} rejected"),
        ReportKind::Expired => format!(in alloc; "{id} {exec} expired"),
        ReportKind::Bust { cancelled_id } => {
            let cancelled = shown(alloc, cancelled_id.as_bytes())?;
            format!(in alloc; "{id} {exec} bust {cancelled}")
        }
    }
}

/// What an exchange knows of an order, if its shares are in range: OrderID, shares filled, shares open, and the leg.
pub fn view_in(alloc: Global, words: &[&str]) -> Result<Option<OrderView>, PlayFault> {
    let [order_id, cum, leaves, leg @ ..] = words else {
        return Err(PlayFault::NotUnderstood);
    };
    let order_id = OrderId::new(&bytes_of(alloc, order_id)?).ok_or(PlayFault::NotUnderstood)?;
    let (cum, leaves) = (number(cum)?, number(leaves)?);
    Ok(OrderView::new(leg_in(leg)?, order_id, cum, leaves))
}

/// Writes a report on the order that its exchange knows.
pub fn write_report(
    alloc: Global,
    dialect: AnyDialect,
    view: &OrderView,
    words: &[&str],
    answers: &mut Answers,
) -> Result<(), PlayFault> {
    let (exec, kind) = exec_and_kind(alloc, words)?;
    let id = view.leg().id;
    let report = Report { id, exec, kind };
    let mut fields = begun(alloc)?;
    match dialect.write_report(alloc, &report, view, &mut fields) {
        Ok(()) => answer_written(alloc, &fields, answers),
        Err(_) => Err(PlayFault::OutOfMemory),
    }
}

/// Reads the report of these fields.
pub fn answer_report(
    alloc: Global,
    dialect: AnyDialect,
    text: &str,
    answers: &mut Answers,
) -> Result<(), PlayFault> {
    let bytes = bytes_of(alloc, text)?;
    let mut places: Vec<Place> = Vec::new(alloc);
    let Ok(Some(frame)) = Frame::read(&bytes, &mut places) else {
        return Err(PlayFault::NotUnderstood);
    };
    match dialect.read_report(&AppFields::new(frame)) {
        Ok(report) => answers.say(&report_text(alloc, &report)?),
        Err(fault) => answers.say(&format!(in alloc; "refused {fault}")?),
    }
}
