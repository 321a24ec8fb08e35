//! The venues of a day, as their workers left them.

ghost use Rattle.std.specs.Prelude.{◌≡◌, map, IfOk};
ghost use Rattle.std.specs.List.{list_any};
ghost use Rattle.live_load.specs.Venues.{lost_of, venue_left, was_answered};

use crate::day::LiveVenue;
use exec_collector::Accounts;
use leg::{LegState, PlacedLeg};
use link::Link;
use release_lock::Run;
use session_core::Session;
use session_worker::WorkerEnd;
use std::alloc::{AllocError, Global};

/// The venues of these workers, in order. The only refusal is out of memory.
pub fn left_venues<K: Link, L: Run, M: Accounts>(
    alloc: Global,
    ends: &[WorkerEnd<K, L, M>],
) -> Result<Vec<LiveVenue>, AllocError>
    ensures { IfOk result (λ venues. venues.items ≡ map (λ e. venue_left e.parts) ends.now) }
{
    let mut venues = Vec::new(alloc);
    for end in ends {
        let venue = left_venue(alloc, end)?;
        venues.push(venue)?;
    }
    Ok(venues)
}

/// Whether some worker's exchange answered a Logon.
pub fn is_answered<K: Link, L: Run, M: Accounts>(ends: &[WorkerEnd<K, L, M>]) -> bool
    ensures { result ≡ list_any (λ left. was_answered left.parts) ends.now }
{
    ends.iter().any(|end| end.session.next_in() > 1)
}

/// The venue of a worker.
#[tactic(auto, unfolding(crate::specs::Venues::venue_left))]
fn left_venue<K: Link, L: Run, M: Accounts>(
    alloc: Global,
    end: &WorkerEnd<K, L, M>,
) -> Result<LiveVenue, AllocError>
    ensures { IfOk result (λ venue. venue ≡ venue_left end.now.parts) }
{
    let doubts = end.in_doubt(alloc)?;
    Ok(LiveVenue {
        number: u64::from(end.took.venue().number()),
        connections: end.session.connection(),
        doubts: doubts.len() as u64,
        lost: lost(&end.session, end.took.taken()),
    })
}

/// How many of these legs a session has withdrawn.
fn lost(session: &Session, legs: &[PlacedLeg]) -> u64
    ensures { result ≡ lost_of session.now legs.now }
{
    legs.iter()
        .filter(|leg| session.leg_state(leg.ordinal) == Some(LegState::Withdrawn))
        .count() as u64
}
