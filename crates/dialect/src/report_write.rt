//! A report is written.

ghost use Rattle.std.specs.Prelude.{◌≡◌, ◌+◌, ◌<◌, ◌≤◌, ◌++◌, OnOk, OnErr, length, vec_len, vec_capacity};
ghost use Rattle.fix_text.specs.Sink.{Pushes};
ghost use Rattle.dialect.specs.Dialect.{Appends};
ghost use Rattle.dialect.specs.Fields.{IsGrown};
ghost use Rattle.dialect.specs.ReportFields.{exec_type_text, ord_status_text, cancelled_fields, fill_fields, event_fields, amount_fields, report_fields, HasShortIds, IsReportOf, IsShortKind};

use crate::fault::SpellFault;
use crate::limit::side_text;
use crate::order_view::OrderView;
use crate::push::{all_or_nothing, push_number, push_short};
use crate::report::{Report, ReportKind};
use crate::report_tag::{
    AVG_PX, CUM_QTY, EXEC_ID, EXEC_REF_ID, EXEC_TYPE, LAST_PX, LAST_QTY, LEAVES_QTY, ORD_STATUS,
    ORDER_ID,
};
use crate::spelling::Spelling;
use crate::tag::{CL_ORD_ID, SIDE};
use fix_text::{Field, FieldSink};
use std::alloc::{AllocError, Global};

/// AvgPx (6), which must be there and isn't kept.
const NO_AVERAGE: &[u8] = b"0";

/// Room for the fields of any report: no report has both those of a trade and that of a bust.
const REPORT_ROOM: usize = 14;

fn exec_type_text(kind: &ReportKind) -> &'static [u8]
    ensures { result.now ≡ exec_type_text kind.now }
{
    match kind {
        ReportKind::New => b"0",
        ReportKind::Trade(_) => b"F",
        ReportKind::Canceled => b"4",
        ReportKind::Rejected => b"8",
        ReportKind::Expired => b"C",
        ReportKind::Bust { .. } => b"H",
    }
}

fn ord_status_text(kind: &ReportKind, leaves: u64) -> &'static [u8]
    ensures { result.now ≡ ord_status_text kind.now leaves }
{
    match kind {
        ReportKind::New => b"0",
        ReportKind::Trade(_) => { if leaves == 0 { b"2" } else { b"1" } }
        ReportKind::Canceled | ReportKind::Bust { .. } => b"4",
        ReportKind::Rejected => b"8",
        ReportKind::Expired => b"C",
    }
}

/// Pushes 19 for a bust.
fn push_cancelled<F: FieldSink>(
    alloc: Global,
    kind: &ReportKind,
    fields: &mut F,
) -> Result<(), AllocError>
    ensures pushed { Pushes F.Takes (cancelled_fields kind.now) fields.old fields.new result }
    ensures left { F.room fields.old ≤ F.room fields.new + 1 }
    ensures full { IsShortKind F.short kind.now → OnErr result (F.room fields.old < 1) }
{
    match kind {
        ReportKind::Bust { cancelled_id } => {
            fields.push_field(alloc, EXEC_REF_ID, cancelled_id.as_bytes())
        }
        _ => Ok(()),
    }
}

/// Pushes 32 and 31 for a trade.
fn push_fill<F: FieldSink>(
    alloc: Global,
    kind: &ReportKind,
    fields: &mut F,
) -> Result<(), AllocError>
    ensures pushed { Pushes F.Takes (fill_fields kind.now) fields.old fields.new result }
    ensures left { F.room fields.old ≤ F.room fields.new + 2 }
    ensures full { OnErr result (F.room fields.old < 2) }
{
    match kind {
        ReportKind::Trade(fill) => {
            push_number(alloc, LAST_QTY, fill.shares(), fields)?;
            push_short(alloc, LAST_PX, fill.px().as_bytes(), fields)
        }
        _ => Ok(()),
    }
}

/// Pushes 37 to 11.
fn push_event<S: Spelling, F: FieldSink>(
    spelling: &S,
    alloc: Global,
    report: &Report,
    view: &OrderView,
    fields: &mut F,
) -> Result<(), AllocError>
    ensures pushed { Pushes F.Takes (event_fields (S.spelling spelling.now) report.now view.now)
        fields.old fields.new result }
    ensures left { F.room fields.old ≤ F.room fields.new + 6 }
    ensures full { HasShortIds F.short report.now view.now → OnErr result (F.room fields.old < 6) }
{
    let kind = &report.kind;
    fields.push_field(alloc, ORDER_ID, view.order_id().as_bytes())?;
    fields.push_field(alloc, EXEC_ID, report.exec.as_bytes())?;
    push_cancelled(alloc, kind, fields)?;
    push_short(alloc, EXEC_TYPE, exec_type_text(kind), fields)?;
    push_short(
        alloc,
        ORD_STATUS,
        ord_status_text(kind, view.leaves()),
        fields,
    )?;
    push_short(
        alloc,
        CL_ORD_ID,
        spelling.id_text(&report.id).as_slice(),
        fields,
    )
}

/// Pushes 54 to 6.
fn push_amounts<F: FieldSink>(
    alloc: Global,
    report: &Report,
    view: &OrderView,
    fields: &mut F,
) -> Result<(), AllocError>
    ensures pushed { Pushes F.Takes (amount_fields report.now view.now) fields.old fields.new result }
    ensures full { OnErr result (F.room fields.old < 6) }
{
    push_short(alloc, SIDE, side_text(view.leg().terms.side()), fields)?;
    push_fill(alloc, &report.kind, fields)?;
    push_number(alloc, LEAVES_QTY, view.leaves(), fields)?;
    push_number(alloc, CUM_QTY, view.cum(), fields)?;
    push_short(alloc, AVG_PX, NO_AVERAGE, fields)
}

/// Pushes the fields of a report, as a venue spells them.
pub(crate) fn push_report<S: Spelling, F: FieldSink>(
    spelling: &S,
    alloc: Global,
    report: &Report,
    view: &OrderView,
    fields: &mut F,
) -> Result<(), AllocError>
    ensures pushed { Pushes F.Takes (report_fields (S.spelling spelling.now) report.now view.now)
        fields.old fields.new result }
    ensures full { HasShortIds F.short report.now view.now → OnErr result (F.room fields.old < 14) }
{
    push_event(spelling, alloc, report, view, fields)?;
    spelling.push_symbol(alloc, view.leg().terms.symbol(), fields)?;
    push_amounts(alloc, report, view, fields)
}

/// Appends the report to a list, or on a refused growth only a part of it.
fn list_report<S: Spelling>(
    spelling: &S,
    alloc: Global,
    report: &Report,
    view: &OrderView,
    fields: &mut Vec<Field>,
) -> Result<(), AllocError>
    ensures ok { OnOk result (fields.new.items
        ≡ fields.old.items ++ report_fields (S.spelling spelling.now) report.now view.now) }
    ensures err { OnErr result (IsGrown fields.old.items fields.new.items) }
    ensures full { HasShortIds 24 report.now view.now
        → OnErr result (vec_capacity fields.old < vec_len fields.old + 14) }
{
    fields.reserve(REPORT_ROOM)?;
    push_report(spelling, alloc, report, view, fields)
}

/// Appends the fields of a report, as a venue spells them, beside what its exchange knows of the order. V05 leaves the
/// list as it was; where no id of the exchange's is longer than 24 bytes it comes only where the list has no room for
/// fourteen more fields.
pub(crate) fn write_report<S: Spelling>(
    spelling: &S,
    alloc: Global,
    report: &Report,
    view: &OrderView,
    fields: &mut Vec<Field>,
) -> Result<(), SpellFault>
    requires { view.now.leg.id ≡ report.now.id }
    ensures ok { OnOk result
        (Appends (IsReportOf (S.spelling spelling.now) report.now view.now) fields.old.items fields.new.items) }
    ensures err { OnErr result (fields.new.items ≡ fields.old.items) }
    ensures full { HasShortIds 24 report.now view.now
        → OnErr result (vec_capacity fields.old < vec_len fields.old + 14) }
{
    // That the report and the view are in range is known once they were read.
    report.in_range();
    let _leaves = view.leaves();
    let start = fields.len();
    let written = list_report(spelling, alloc, report, view, fields);
    all_or_nothing(written, start, fields)
}
