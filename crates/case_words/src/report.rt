//! Reports, in words.

use case_text::shown;
use dialect::{Report, ReportKind};
use std::alloc::{AllocError, Global};

/// What happened to an order.
fn kind_text(alloc: Global, kind: &ReportKind) -> Result<String, AllocError> {
    match kind {
        ReportKind::New => String::from_str(alloc, "new"),
        ReportKind::Trade(fill) => {
            let shares = fill.shares();
            let px = shown(alloc, fill.px().as_bytes())?;
            format!(in alloc; "trade {shares} at {px}")
        }
        ReportKind::Canceled => String::from_str(alloc, "canceled"),
        ReportKind::Rejected => String::from_str(alloc, "rejected"),
        ReportKind::Expired => String::from_str(alloc, "expired"),
        ReportKind::Bust { cancelled_id } => {
            let id = shown(alloc, cancelled_id.as_bytes())?;
            format!(in alloc; "bust {id}")
        }
    }
}

/// What a report says, as `report S1L1 E2 trade 60 at 10.25`.
pub fn report_text(alloc: Global, report: &Report) -> Result<String, AllocError> {
    let id = report.id;
    let exec = shown(alloc, report.exec.as_bytes())?;
    let kind = kind_text(alloc, &report.kind)?;
    format!(in alloc; "report {id} {exec} {kind}")
}
