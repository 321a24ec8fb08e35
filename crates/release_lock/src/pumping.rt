//! Moves placed legs into a ring, and those of a sweep's venues into theirs.

ghost use Rattle.std.specs.Prelude.{◌≡◌, ◌⊎◌, ◌<◌, ◌++◌, ℕ, Bool, length, min};
ghost use Rattle.crossbeam_queue.specs.Fifo.{Held};
ghost use Rattle.venue_queue.specs.Rule.{EndsWith};
ghost use Rattle.sweep_release.specs.Desk.{placed, leave};
ghost use Rattle.sweep_release.specs.History.{left_entries};
ghost use Rattle.release_lock.specs.Locked.{Replays};
ghost use Rattle.release_lock.specs.Queues.{left_to, leaving, AreMarks, Pumps, PumpsEach};

use crate::sweep_venues::SweepVenues;
use crate::{LockedDesk, Run};
use kept_link::Telling;
use leg::VenueId;
use std::sync::Wait;
use sweep_release::{Desk, Gate};
use venue_queue::Feed;

/// Moves placed legs of a venue into its ring, in order, until none is placed or the ring was full at some moment. A
/// leg leaves the desk only once it is in the ring.
pub(crate) fn pump(rt: &impl Wait, desk: &mut Desk, venue: VenueId, feed: &mut Feed) -> u64
    requires there { venue < length desk.old.desk.venues }
    requires fed { feed.old.legs ≡ left_to desk.old.desk venue }
    ensures desk { Pumps venue desk.old desk.new }
    ensures fed { feed.new.legs ≡ left_to desk.new.desk venue }
    ensures ring { (feed.new.table ≡ feed.old.table) × (feed.new.room ≡ feed.old.room) }
    ensures done { (placed desk.new.desk venue ≡ 0) ⊎ Held feed.old.room (EndsWith feed.new.legs) }
    ensures count { result ≡ min (length feed.new.legs) 18446744073709551615 }
{
    while let Some(leg) = desk.next_leg(venue) {
        match feed.push(rt, leg) {
            Ok(()) => let_leave(desk, venue),
            Err(_) => return feed.pushed(),
        }
    }
    feed.pushed()
}

/// The next leg leaves the desk, whatever the gate.
fn let_leave(desk: &mut Desk, venue: VenueId)
    requires there { venue < length desk.old.desk.venues }
    ensures desk { desk.new.desk ≡ (leave desk.old.desk venue).1 }
    ensures history { desk.new.history ≡ desk.old.history ++ left_entries (leaving desk.old.desk venue)
        (leave desk.old.desk venue).0 }
    ensures room { desk.new.room ≡ desk.old.room }
{
    let _left = match desk.gate(venue) {
        Gate::Up => desk.take(venue),
        Gate::Down => desk.drop_next(venue),
        Gate::Shut => desk.drop_next(venue),
    };
}

/// Pumps each venue that a sweep has a leg for, in the order of their numbers.
pub(crate) fn pump_each<L: Run, J: Telling>(
    rt: &impl Wait,
    locked: &mut LockedDesk<L, J>,
    venues: &SweepVenues,
)
    ensures desk { (named : ℕ → Bool) → AreMarks venues.now.marks named
        → PumpsEach named (length locked.old.desk.venues) locked.old locked.new }
    ensures replays { Replays locked.new }
{
    let count = locked.desk().venues();
    for number in 0..count {
        let Ok(venue) = VenueId::new(number as u8) else {
            unreachable!()
        };
        if venues.has(venue) {
            locked.pump(rt, venue);
        }
    }
}
