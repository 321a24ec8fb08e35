//! What a worker's end and its exchange say of the legs.

use crate::sums::is_withdrawn;
use crate::{DayFault, Shown, VenueEnd};
use dialect::ReportKind;
use exchange_core::Exchange;
use exec_collector::Accounts;
use leg::{LegState, PlacedLeg};
use release_lock::Run;
use session_core::Session;
use session_worker::WorkerEnd;

/// Compares the legs that were taken from the ring, in order, with those that the exchange accepted: it has those that
/// the session knows to be taken, none that is withdrawn, each once, in the order of the ring, and no other.
fn compare(session: &Session, taken: &[PlacedLeg], exchange: &Exchange) -> Result<(), DayFault> {
    let mut accepted = exchange.accepted();
    for placed in taken {
        let state = session.leg_state(placed.ordinal);
        match accepted.split_first() {
            Some((leg, later)) if leg.id == placed.leg.id => {
                if is_withdrawn(session, placed) {
                    return Err(DayFault::Differs(placed.ordinal));
                }
                accepted = later;
            }
            _ => {
                if state == Some(LegState::Taken) {
                    return Err(DayFault::Differs(placed.ordinal));
                }
            }
        }
    }
    if accepted.is_empty() {
        Ok(())
    } else {
        Err(DayFault::Accepted)
    }
}

/// The shares of all trades that an exchange reported.
fn traded(exchange: &Exchange) -> u64 {
    let mut shares: u64 = 0;
    for report in exchange.reports() {
        if let ReportKind::Trade(fill) = &report.kind {
            shares = shares.saturating_add(fill.shares());
        }
    }
    shares
}

/// How many of these legs are in doubt.
fn in_doubt(session: &Session, taken: &[PlacedLeg]) -> usize {
    let doubt = |placed: &&PlacedLeg| session.leg_state(placed.ordinal) == Some(LegState::Doubt);
    taken.iter().filter(doubt).count()
}

/// What a worker did. What it says of its legs agrees with the exchange, where that can be looked at.
pub fn venue_end<K: Shown, L: Run, M: Accounts>(
    end: &WorkerEnd<K, L, M>,
) -> Result<VenueEnd, DayFault> {
    let taken = end.took.taken();
    let mut accepted = None;
    let mut reported = None;
    if let Some(exchange) = end.link.exchange() {
        compare(&end.session, taken, exchange)?;
        accepted = Some(exchange.accepted().len());
        reported = exchange.closed_at().map(|_| traded(exchange));
    }
    Ok(VenueEnd {
        reason: end.reason,
        taken: taken.len(),
        accepted,
        traded: reported,
        in_doubt: in_doubt(&end.session, taken),
        connections: end.session.connection(),
        next_out: end.session.next_out(),
        faults: end.link.faults(),
    })
}
