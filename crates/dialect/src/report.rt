//! A report: what an exchange says of a leg.

ghost use Rattle.std.specs.Prelude.{⊤, ◌≡◌};

use crate::fill::Fill;
use crate::free_text::ExecId;
use leg::LegId;
use std::alloc::AllocError;

/// What happened to an order: ExecType (150) of an ExecutionReport, FIX 4.4 Volume 4.
#[derive(Debug, PartialEq, Eq, Drop)]
pub enum ReportKind {
    /// The order was taken.
    New,
    /// Some of its shares were traded.
    Trade(Fill),
    /// The shares that were open were withdrawn.
    Canceled,
    /// The order was refused.
    Rejected,
    /// The shares that were open lapsed.
    Expired,
    /// An earlier trade, whose report had this id, is undone.
    Bust { cancelled_id: ExecId },
}

/// A report on a leg, under the id that the exchange gave it.
#[derive(Debug, PartialEq, Eq, Drop)]
pub struct Report {
    pub id: LegId,
    pub exec: ExecId,
    pub kind: ReportKind,
}

impl Report {
    ghost use Rattle.dialect.specs.Report.{IsReport};

    /// Does nothing when it runs. Its contract tells a caller that every part of the report is in range.
    pub fn in_range(&self)
        ensures { IsReport self.now }
    {
        let _ = self.id.sweep();
        let _ = self.exec.as_bytes();
        match &self.kind {
            ReportKind::Trade(fill) => {
                let _ = fill.shares();
            }
            ReportKind::Bust { cancelled_id } => {
                let _ = cancelled_id.as_bytes();
            }
            _ => {}
        }
    }
}

/// A clone takes no memory and doesn't fail: it is the same kind.
impl Clone for ReportKind {
    ghost is_clone = { λ kind copy. copy ≡ kind };

    ghost is_infallible = { λ _. ⊤ };

    fn clone(&self) -> Result<ReportKind, AllocError> {
        match self {
            ReportKind::New => Ok(ReportKind::New),
            ReportKind::Trade(fill) => Ok(ReportKind::Trade(fill.clone()?)),
            ReportKind::Canceled => Ok(ReportKind::Canceled),
            ReportKind::Rejected => Ok(ReportKind::Rejected),
            ReportKind::Expired => Ok(ReportKind::Expired),
            ReportKind::Bust { cancelled_id } => Ok(ReportKind::Bust {
                cancelled_id: cancelled_id.clone()?,
            }),
        }
    }
}

/// A clone takes no memory and doesn't fail: it is the same report.
impl Clone for Report {
    ghost is_clone = { λ report copy. copy ≡ report };

    ghost is_infallible = { λ _. ⊤ };

    fn clone(&self) -> Result<Report, AllocError> {
        Ok(Report {
            id: self.id,
            exec: self.exec.clone()?,
            kind: self.kind.clone()?,
        })
    }
}
