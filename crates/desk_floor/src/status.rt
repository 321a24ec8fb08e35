//! How a venue stands, as a desk asks.

ghost use Rattle.std.specs.Prelude.{◌≡◌, length};
ghost use Rattle.release_lock.specs.Held.{OnlyLowers};
ghost use Rattle.release_lock.specs.Locked.{Replays};
ghost use Rattle.sweep_release.specs.History.{KeptDesk};
ghost use Rattle.sweep_release.specs.Released.{released};
ghost use Rattle.desk_floor.specs.Status.{IsTold};

use crate::floor::Floor;
use desk_news::VenueStatus;
use exec_collector::Accounts;
use kept_link::Telling;
use leg::VenueId;
use release_lock::{ReleaseLock, Run};
use std::io::Write;
use std::sync::Wait;
use sweep_release::Desk;

/// How many legs were released to a venue.
fn released_to(desk: &mut Desk, venue: VenueId) -> u64
    ensures value { result ≡ length (released venue desk.old.desk.sweeps) }
    ensures turns { OnlyLowers desk.old desk.new }
{
    desk.released(venue).len() as u64
}

/// How many legs a desk has released to a venue that replays from its own history. It may wait for the lock.
fn released_now<L: Run, J: Telling>(rt: &impl Wait, lock: &ReleaseLock<L, J>, venue: VenueId) -> u64
    ensures { (desk : KeptDesk) × Replays desk × (result ≡ length (released venue desk.desk.sweeps)) }
{
    lock.with(rt, |desk: &mut Desk| released_to(desk, venue))
}

/// How the venue at a place stands, if there is one. It may wait for the locks of the desk and of the venue's log.
pub fn venue_status<L: Run, M: Accounts, W: Write + Drop, J: Telling>(
    rt: &impl Wait,
    floor: &Floor<L, M, W, J>,
    place: usize,
) -> Option<VenueStatus>
    ensures { IsTold floor.now.names.items (length floor.now.views.items) place result }
{
    let name = floor.names.get(place)?;
    let seen = floor.seen(place)?;
    let view = floor.views.get(place)?;
    let lost = view.lost(rt);
    let released = released_now(rt, &floor.lock, seen.venue);
    Some(VenueStatus {
        venue: name.clone().unwrap(),
        unsent: released.saturating_sub(seen.taken),
        doubt: seen.doubts,
        lost,
        contradicted: view.contradicted_legs(),
        state: seen.standing.state(seen.seconds, view.said(rt)),
    })
}
