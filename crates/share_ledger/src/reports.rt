//! The reports booked for a venue, by their ids.

ghost use Rattle.std.specs.Prelude.{◌≡◌, Some, None, is_some, OnOk, OnErr, bytes_eq, List, ℕ, if◌then◌else◌};
ghost use Rattle.share_ledger.specs.Reports.{report_at, shares_on, trade_told, emptied, with_report, report_after, moved_by};

use crate::Applied;
use crate::booked_leg::BookedLeg;
use dialect::{ExecId, Report, ReportKind};
use leg::LegId;
use std::alloc::{AllocError, Global};
use std::collections::HashMap;

/// A trade that can be busted: the leg that it is on, and its shares.
#[derive(Clone, Copy, Debug, PartialEq, Eq)]
pub struct BookedTrade {
    pub leg: LegId,
    pub shares: u64,
}

/// The reports booked for a venue, by their ids, each with the trade that it told, unless that was busted.
#[derive(Drop)]
pub struct Reports {
    by_id: HashMap<ExecId, Option<BookedTrade>>,
}

impl Reports {
    /// No report was booked.
    pub fn new(alloc: Global) -> Reports
        ensures { (exec : List ℕ) → report_at result exec ≡ None }
    {
        Reports {
            by_id: HashMap::new(alloc),
        }
    }

    /// Whether a report of this id was booked.
    pub fn has(&self, exec: &ExecId) -> bool
        ensures { result ≡ is_some (report_at self.now exec.now) }
    {
        self.by_id.contains_key(exec)
    }

    /// The shares of the trade on a leg that the report of this id told, unless it was busted.
    fn shares_on(&self, leg: LegId, exec: &ExecId) -> Option<u64>
        ensures { result ≡ shares_on leg (report_at self.now exec.now) }
    {
        match self.by_id.get(exec) {
            Some(Some(trade)) => {
                if trade.leg == leg {
                    Some(trade.shares)
                } else {
                    None
                }
            }
            Some(None) => None,
            None => None,
        }
    }

    /// A leg after a report on it, or the answer where the report doesn't move.
    pub fn moved(&self, was: BookedLeg, report: &Report) -> Result<BookedLeg, Applied>
        ensures { result ≡ moved_by self.now report.now.id report.now.kind was }
    {
        let mut now = was;
        match &report.kind {
            ReportKind::New => {}
            ReportKind::Trade(fill) => {
                if now.parts.fill(fill.shares()).is_err() {
                    return Err(Applied::Overfill);
                }
            }
            ReportKind::Canceled => now.parts.cancel_rest(),
            ReportKind::Rejected => now.parts.cancel_rest(),
            ReportKind::Expired => now.parts.cancel_rest(),
            ReportKind::Bust { cancelled_id } => {
                let Some(shares) = self.shares_on(report.id, cancelled_id) else {
                    return Err(Applied::Stray);
                };
                if now.parts.bust(shares).is_err() {
                    return Err(Applied::Stray);
                }
            }
        }
        Ok(now)
    }

    /// Books a report, with the trade that it tells; the one that it busts can't be busted again.
    pub fn book(&mut self, report: &Report) -> Result<(), AllocError>
        ensures ok { OnOk result ((exec : List ℕ) → report_at self.new exec ≡ report_after self.old report.now exec) }
        ensures err { OnErr result ((exec : List ℕ) → report_at self.new exec ≡ report_at self.old exec) }
    {
        self.add(&report.exec, trade_in(report))?;
        if let ReportKind::Bust { cancelled_id } = &report.kind {
            self.bust(cancelled_id);
        }
        Ok(())
    }

    /// Keeps a trade, or none, under an id.
    fn add(&mut self, exec: &ExecId, trade: Option<BookedTrade>) -> Result<(), AllocError>
        ensures ok { OnOk result ((id : List ℕ) → report_at self.new id ≡ with_report exec.now trade self.old id) }
        ensures err { OnErr result ((id : List ℕ) → report_at self.new id ≡ report_at self.old id) }
    {
        self.by_id.insert(exec.clone().unwrap(), trade)?;
        Ok(())
    }

    /// Keeps no trade any longer under an id.
    fn bust(&mut self, exec: &ExecId)
        ensures { (id : List ℕ) → report_at self.new id
            ≡ (if bytes_eq exec.now id then emptied (report_at self.old id) else report_at self.old id) }
    {
        if let Some(trade) = self.by_id.get_mut(exec) {
            *trade = None;
        }
    }
}

/// The trade that a report tells.
fn trade_in(report: &Report) -> Option<BookedTrade>
    ensures { result ≡ trade_told report.now.id report.now.kind }
{
    match &report.kind {
        ReportKind::New => None,
        ReportKind::Trade(fill) => Some(BookedTrade {
            leg: report.id,
            shares: fill.shares(),
        }),
        ReportKind::Canceled => None,
        ReportKind::Rejected => None,
        ReportKind::Expired => None,
        ReportKind::Bust { cancelled_id: _ } => None,
    }
}
