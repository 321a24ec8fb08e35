//! The sums over the sweeps of a day.

use crate::{DayFault, SweepEnd};
use exec_collector::{Accounts, Collector};
use leg::{LegState, PlacedLeg, Totals};
use link::Link;
use release_lock::Run;
use session_core::Session;
use session_worker::{DayReport, WorkerEnd};
use std::alloc::Global;
use std::sync::Wait;
use sweep_release::Receipt;

/// A sum, up to the greatest number.
fn sum(parts: &[u64]) -> u64 {
    let mut sum: u64 = 0;
    for part in parts {
        sum = sum.saturating_add(*part);
    }
    sum
}

/// The shares of a sweep that are no longer open.
fn resolved(totals: &Totals) -> u64 {
    sum(&[
        totals.filled,
        totals.busted,
        totals.cancelled,
        totals.withdrawn,
    ])
}

/// Whether no exchange has or gets a leg that was taken from the ring, as far as the session knows.
pub fn is_withdrawn(session: &Session, placed: &PlacedLeg) -> bool {
    match session.leg_state(placed.ordinal) {
        None | Some(LegState::Withdrawn) => true,
        Some(LegState::Queued | LegState::Doubt | LegState::Taken) => false,
    }
}

/// The shares of a sweep's legs that these workers took and no exchange has or gets.
fn withdrawn<K: Link, L: Run, M: Accounts>(ends: &[WorkerEnd<K, L, M>], sweep: u64) -> u64 {
    let mut shares: u64 = 0;
    for end in ends {
        for placed in end.took.taken() {
            if placed.leg.id.sweep() == sweep && is_withdrawn(&end.session, placed) {
                shares = shares.saturating_add(placed.leg.terms.shares());
            }
        }
    }
    shares
}

/// What became of each of these sweeps, whose parts add up, with just those shares withdrawn that no exchange can have.
pub fn sweep_ends<K: Link, L: Run, M: Accounts>(
    rt: &impl Wait,
    alloc: Global,
    collector: &Collector<M>,
    receipts: &[Receipt],
    ends: &[WorkerEnd<K, L, M>],
) -> Result<Vec<SweepEnd>, DayFault> {
    let mut sweeps = Vec::with_capacity(alloc, receipts.len())?;
    for receipt in receipts {
        let number = receipt.number;
        let totals = collector.totals(rt, number);
        let totals = totals.ok_or(DayFault::Parts(number))?;
        if sum(&[resolved(&totals), totals.still_open]) != receipt.shares {
            return Err(DayFault::Parts(number));
        }
        if totals.withdrawn != withdrawn(ends, number) {
            return Err(DayFault::Withdrawn(number));
        }
        sweeps.push(SweepEnd {
            receipt: *receipt,
            totals,
        })?;
    }
    Ok(sweeps)
}

/// The report that an audit gives of these sweeps.
pub fn report_of(sweeps: &[SweepEnd]) -> DayReport {
    let mut report = DayReport {
        placed: 0,
        resolved: 0,
        still_open: 0,
    };
    for SweepEnd { receipt, totals } in sweeps {
        report.placed = report.placed.saturating_add(receipt.shares);
        report.resolved = report.resolved.saturating_add(resolved(totals));
        report.still_open = report.still_open.saturating_add(totals.still_open);
    }
    report
}
