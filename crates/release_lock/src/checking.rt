//! Compares what the venues' workers took with what was released.

ghost use Rattle.std.specs.Prelude.{◌≡◌, ◌<◌, ◌↔◌, [], length, IsOk, IsTrue, MatchResult};
ghost use mathlib.Core.List.{IsPrefix};
ghost use Rattle.release_lock.specs.Queues.{released_to, placed_from, TookFirst, AllTookFirst, IsFirstWrong, IsFed, AreInOrder};

use crate::{LockedDesk, Run, VenueDrain, VenueEnd};
use kept_link::Telling;
use leg::{Leg, PlacedLeg, VenueId};
use std::collections::VecDeque;
use sweep_release::Desk;
use venue_queue::{Feed, agree};

/// A worker didn't take the first legs released to the venue at its place.
#[derive(Clone, Copy, Debug, PartialEq, Eq)]
pub struct WrongQueue {
    /// The first such place, from 0.
    pub place: usize,
}

/// Whether each worker took the first legs released to the venue at its place, from 0; to one that the run hasn't got
/// none is released. Where each stands at the place of its venue it did, whatever the threads did.
pub fn check_queues<L: Run, J: Telling>(
    locked: LockedDesk<L, J>,
    ends: Vec<VenueEnd<L>>,
) -> Result<(), WrongQueue>
    ensures exact { MatchResult result (λ _. AllTookFirst locked.desk ends.items (length ends.items))
        (λ wrong. IsFirstWrong locked.desk ends.items wrong.place) }
    ensures whole { AreInOrder ends.items → IsOk result }
{
    let LockedDesk {
        desk,
        total: _,
        feeds,
        sweeps: _,
        book: _,
        dollars: _,
        journal: _,
    } = locked;
    let mut feeds = VecDeque::from(feeds);
    let mut ends = VecDeque::from(ends);
    let mut place = 0;
    while let Some(end) = ends.pop_front() {
        match feeds.pop_front() {
            Some(feed) => {
                let Ok(venue) = VenueId::new(place as u8) else {
                    unreachable!()
                };
                if !took_first(&desk, venue, feed, end) {
                    return Err(WrongQueue { place });
                }
            }
            None => {
                if !took_none(end) {
                    return Err(WrongQueue { place });
                }
            }
        }
        place += 1;
    }
    Ok(())
}

/// Whether a worker took the first legs released to a venue. Where its drain is of this venue, it did.
fn took_first<L: Run>(desk: &Desk, venue: VenueId, feed: Feed, end: VenueEnd<L>) -> bool
    requires there { venue < length desk.now.desk.venues }
    requires fed { IsFed L.queues desk.now.desk venue feed }
    ensures exact { IsTrue result ↔ TookFirst desk.now.desk venue end }
    ensures whole { end.venue ≡ venue → IsTrue result }
{
    let VenueEnd { drain, taken } = end;
    let VenueDrain {
        venue: of_venue,
        drain,
        of: _,
    } = drain;
    let took = begins(taken.as_slice(), desk.released(venue));
    if of_venue == venue {
        agree(feed, drain);
    }
    took
}

/// Whether a worker took no leg. Its venue is one of the run's.
fn took_none<L: Run>(end: VenueEnd<L>) -> bool
    ensures exact { IsTrue result ↔ (end.taken ≡ []) }
    ensures there { end.venue < length L.queues }
{
    let VenueEnd { drain, taken } = end;
    let _ = drain.venue();
    taken.is_empty()
}

/// Whether these are the first of the released legs.
fn begins(taken: &[PlacedLeg], released: &[Leg]) -> bool
    ensures { IsTrue result ↔ IsPrefix taken.now (placed_from 1 released.now) }
{
    if taken.len() > released.len() {
        return false;
    }
    for (place, placed) in taken.iter().enumerate() {
        if !is_placed(placed, place as u64 + 1, &released[place]) {
            return false;
        }
    }
    true
}

/// Whether this is the leg, with its ordinal.
fn is_placed(placed: &PlacedLeg, ordinal: u64, leg: &Leg) -> bool
    ensures { IsTrue result ↔ (placed.now ≡ record { ordinal = ordinal; leg = leg.now }) }
{
    placed.ordinal == ordinal && placed.leg == *leg
}
