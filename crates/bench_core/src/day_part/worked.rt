//! The worked sweep and leg, and the report on a trade of one of the sweep's legs.

use dialect::{ExecId, Fill, LastPx, Note, Report, ReportKind};
use itoa::Buffer;
use leg::{Leg, LegId, MAX_SWEEP, Side, Sweep, Symbol, Terms};
use std::alloc::Global;
use trial::{TrialFault, sweep_each};

/// How many venues there are, and how many legs a sweep has, one for each.
pub const VENUES: u8 = 16;

/// Buy 1,000 IBM at 10 dollars at each of the venues.
pub fn worked_sweep(alloc: Global) -> Result<Sweep, TrialFault> {
    sweep_each(alloc, VENUES, 1_000)
}

/// Buy 1,000 IBM at 10 dollars, the only leg of the sweep of a number.
pub fn worked_leg(sweep: u64) -> Result<Leg, TrialFault> {
    if sweep == 0 || sweep > MAX_SWEEP {
        return Err(TrialFault::Refused);
    }
    let symbol = Symbol::new(b"IBM", b"")?;
    Ok(Leg {
        id: LegId::new(sweep, 1),
        terms: Terms::new(symbol, Side::Buy, 1_000, 100_000)?,
    })
}

/// The report on a trade of one share of a sweep's first leg, under a number of its own as its id.
pub fn worked_trade(sweep: u64, number: u64) -> Result<Note, TrialFault> {
    if sweep == 0 || sweep > MAX_SWEEP {
        return Err(TrialFault::Refused);
    }
    let px = LastPx::new(b"10").ok_or(TrialFault::Refused)?;
    let fill = Fill::new(1, px).ok_or(TrialFault::Refused)?;
    let mut text = Buffer::new();
    let exec = ExecId::new(text.format(number).as_bytes()).ok_or(TrialFault::Refused)?;
    Ok(Note::Report(Report {
        id: LegId::new(sweep, 1),
        exec,
        kind: ReportKind::Trade(fill),
    }))
}
