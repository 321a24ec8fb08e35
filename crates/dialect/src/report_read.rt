//! A report is read. What it traded is on the way of each, in each dialect: so what reads that is inlined.

ghost use Rattle.std.specs.Prelude.{◌≡◌, IfOk};
ghost use Rattle.leg.specs.Terms.{IsShares};
ghost use Rattle.dialect.specs.Fields.{required_as};
ghost use Rattle.dialect.specs.FreeText.{free_text_of};
ghost use Rattle.dialect.specs.Limit.{order_shares_of};
ghost use Rattle.dialect.specs.Report.{IsReport};
ghost use Rattle.dialect.specs.ReportRead.{fill_in, trade_in, bust_in, kind_of_byte, kind_in, report_read_of};

use crate::fault::DialectFault;
use crate::field_value::required;
use crate::fill::Fill;
use crate::free_text::{ExecId, LastPx};
use crate::limit::read_order_shares;
use crate::order::id_in;
use crate::report::{Report, ReportKind};
use crate::report_tag::{EXEC_ID, EXEC_REF_ID, EXEC_TYPE, LAST_PX, LAST_QTY};
use crate::spelling::Spelling;
use fix_tags::AppFields;

/// The id of an execution in this field (17 or 19), as `ExecId::new` takes it.
pub fn exec_id_in(fields: &AppFields<'_>, tag: u32) -> Result<ExecId, DialectFault>
    ensures { result ≡ required_as (free_text_of 64) fields.now tag }
{
    let text = required(fields, tag)?;
    ExecId::of_value(text).ok_or(DialectFault::Bad(tag))
}

#[inline(always)]
fn last_shares_in(fields: &AppFields<'_>) -> Result<u64, DialectFault>
    ensures value { result ≡ required_as order_shares_of fields.now 32 }
    ensures in_range { IfOk result IsShares }
{
    let text = required(fields, LAST_QTY)?;
    read_order_shares(text).ok_or(DialectFault::Bad(LAST_QTY))
}

#[inline(always)]
fn last_px_in(fields: &AppFields<'_>) -> Result<LastPx, DialectFault>
    ensures { result ≡ required_as (free_text_of 20) fields.now 31 }
{
    let text = required(fields, LAST_PX)?;
    LastPx::of_value(text).ok_or(DialectFault::Bad(LAST_PX))
}

/// Reads 32 and 31.
#[inline(always)]
#[tactic(auto, unfolding(crate::specs::ReportRead::fill_in))]
fn fill_in(fields: &AppFields<'_>) -> Result<Fill, DialectFault>
    ensures { result ≡ fill_in fields.now }
{
    let shares = last_shares_in(fields)?;
    let px = last_px_in(fields)?;
    Ok(Fill::new(shares, px).unwrap())
}

#[inline(always)]
fn trade_in(fields: &AppFields<'_>) -> Result<ReportKind, DialectFault>
    ensures { result ≡ trade_in fields.now }
{
    let fill = fill_in(fields)?;
    Ok(ReportKind::Trade(fill))
}

fn bust_in(fields: &AppFields<'_>) -> Result<ReportKind, DialectFault>
    ensures { result ≡ bust_in fields.now }
{
    let cancelled_id = exec_id_in(fields, EXEC_REF_ID)?;
    Ok(ReportKind::Bust { cancelled_id })
}

/// Reads what the byte of 150 says, with the fields that it needs.
#[inline(always)]
fn kind_by(fields: &AppFields<'_>, byte: u8) -> Result<ReportKind, DialectFault>
    ensures { result ≡ kind_of_byte fields.now byte }
{
    match byte {
        b'0' | b'6' | b'7' | b'9' | b'A' | b'B' | b'I' => Ok(ReportKind::New),
        b'F' => trade_in(fields),
        b'4' => Ok(ReportKind::Canceled),
        b'8' => Ok(ReportKind::Rejected),
        b'C' | b'3' => Ok(ReportKind::Expired),
        b'H' => bust_in(fields),
        _ => Err(DialectFault::Bad(EXEC_TYPE)),
    }
}

/// What happened, by 150, with the fields that it needs: 32 and 31 of a trade, 19 of a bust.
#[inline(always)]
pub fn kind_in(fields: &AppFields<'_>) -> Result<ReportKind, DialectFault>
    ensures { result ≡ kind_in fields.now }
{
    match required(fields, EXEC_TYPE)? {
        [byte] => kind_by(fields, *byte),
        _ => Err(DialectFault::Bad(EXEC_TYPE)),
    }
}

/// Reads a report. It takes no memory. Faults are tried in the order 11, 17, 150, and then 32 and 31 of a trade or 19
/// of a bust, and the first one is answered. The other fields aren't looked at.
#[tactic(auto, unfolding(crate::specs::ReportRead::report_read_of))]
pub(crate) fn read_report<S: Spelling>(
    spelling: &S,
    fields: &AppFields<'_>,
) -> Result<Report, DialectFault>
    ensures value { result ≡ report_read_of (S.spelling spelling.now) fields.now }
    ensures in_range { IfOk result IsReport }
{
    let id = id_in(spelling, fields)?;
    let exec = exec_id_in(fields, EXEC_ID)?;
    let kind = kind_in(fields)?;
    let report = Report { id, exec, kind };
    // That the report is in range is known once it was read.
    report.in_range();
    Ok(report)
}
