//! Reports on legs of the first sweep.

ghost use Rattle.std.specs.Prelude.{◌≤◌};

use dialect::{ExecId, Fill, LastPx, Note, Report, ReportKind};
use leg::LegId;
use std::test::Fail;

/// A report on a leg.
pub(crate) fn report(place: u8, exec: &[u8], kind: ReportKind) -> Result<Note, Fail>
    requires low { 1 ≤ place }
    requires high { place ≤ 32 }
{
    Ok(Note::Report(Report {
        id: LegId::new(1, place),
        exec: ExecId::new(exec).ok_or("an id")?,
        kind,
    }))
}

/// So many of its shares were traded.
pub(crate) fn trade(place: u8, exec: &[u8], shares: u64) -> Result<Note, Fail>
    requires low { 1 ≤ place }
    requires high { place ≤ 32 }
{
    let px = LastPx::new(b"10").ok_or("a price")?;
    let fill = Fill::new(shares, px).ok_or("a fill")?;
    report(place, exec, ReportKind::Trade(fill))
}
