//! The checks once a day is over.

ghost use Rattle.std.specs.Prelude.{◌≡◌};

use crate::sums::{report_of, sweep_ends};
use crate::venue_checks::venue_end;
use crate::{DayFault, Outcome, Shown, SweepEnd, VenueEnd};
use exec_collector::{Accounts, Collector};
use release_lock::{CallerSeat, ReleaseLock, Run};
use session_worker::{WorkerEnd, audit};
use std::alloc::Global;
use std::sync::Wait;
use sweep_release::Receipt;

/// The shares of all trades that the exchanges reported, if each of them took the session's Logout.
fn traded(venues: &[VenueEnd]) -> Option<u64> {
    let mut shares: u64 = 0;
    for venue in venues {
        shares = shares.saturating_add(venue.traded?);
    }
    Some(shares)
}

/// The shares that are filled, over all sweeps.
fn filled(sweeps: &[SweepEnd]) -> u64 {
    let mut shares: u64 = 0;
    for sweep in sweeps {
        shares = shares.saturating_add(sweep.totals.filled);
    }
    shares
}

/// Refuses a day in which a session logged out before all that was reported to it was booked.
fn check_trades(venues: &[VenueEnd], sweeps: &[SweepEnd]) -> Result<(), DayFault> {
    match traded(venues) {
        Some(shares) if shares != filled(sweeps) => Err(DayFault::Trades),
        _ => Ok(()),
    }
}

/// What each worker did, where its exchange agrees.
fn venue_ends<K: Shown, L: Run, M: Accounts>(
    alloc: Global,
    ends: &[WorkerEnd<K, L, M>],
) -> Result<Vec<VenueEnd>, DayFault> {
    let mut venues = Vec::with_capacity(alloc, ends.len())?;
    for end in ends {
        venues.push(venue_end(end)?)?;
    }
    Ok(venues)
}

/// What went over the links, as far as they keep it.
fn texts_of<K: Shown, L: Run, M: Accounts>(
    alloc: Global,
    ends: &[WorkerEnd<K, L, M>],
) -> Result<String, DayFault> {
    let mut text = String::new(alloc);
    for end in ends {
        text.push_str(end.link.text())?;
    }
    Ok(text)
}

/// What became of a day, where all of it agrees: the sums of each sweep, the legs and trades of each
/// venue, and the audit.
pub fn day_outcome<K: Shown, L: Run, M: Accounts>(
    rt: &impl Wait,
    alloc: Global,
    lock: ReleaseLock<L>,
    collector: Collector<M>,
    seats: Vec<CallerSeat<L>>,
    receipts: &[Receipt],
    ends: Vec<WorkerEnd<K, L, M>>,
) -> Result<Outcome, DayFault>
    requires tied { L.sweeps ≡ M.sweeps }
{
    let sweeps = sweep_ends(rt, alloc, &collector, receipts, ends.as_slice())?;
    let venues = venue_ends(alloc, ends.as_slice())?;
    let text = texts_of(alloc, ends.as_slice())?;
    check_trades(venues.as_slice(), sweeps.as_slice())?;
    let report = audit(alloc, lock, collector, seats, ends)?;
    if report != report_of(sweeps.as_slice()) {
        return Err(DayFault::Sums);
    }
    Ok(Outcome {
        sweeps,
        venues,
        report,
        text,
    })
}
