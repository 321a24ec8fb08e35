//! What a worker asks of its venue's gate.

ghost use Rattle.std.specs.Prelude.{◌≡◌};
ghost use Rattle.sweep_release.specs.Desk.{shut};
ghost use Rattle.sweep_release.specs.History.{KeptDesk as ADesk};
ghost use Rattle.release_lock.specs.Held.{OnlyLowers};
ghost use Rattle.release_lock.specs.Locked.{Replays};

use kept_link::Telling;
use leg::VenueId;
use release_lock::{ReleaseLock, Run, let_down};
use std::sync::Wait;
use sweep_release::Desk;

/// Puts the gate of a venue down, if it is up.
pub(crate) fn lower<L: Run, N: Telling>(rt: &impl Wait, lock: &ReleaseLock<L, N>, venue: VenueId) {
    lock.with(rt, |desk: &mut Desk| let_down(desk, venue));
}

/// Shuts the gate of a venue, for good: no sweep for it is released any more, and its worker ends its session. Of a
/// venue that the desk hasn't got nothing changes. It may wait for the lock.
pub fn shut_gate<L: Run, N: Telling>(rt: &impl Wait, lock: &ReleaseLock<L, N>, venue: VenueId)
    ensures { (before : ADesk) × (after : ADesk) × Replays before × Replays after
        × (after.desk ≡ shut before.desk venue) }
{
    lock.with(rt, |desk: &mut Desk| let_shut(desk, venue));
}

fn let_shut(desk: &mut Desk, venue: VenueId)
    ensures lowers { OnlyLowers desk.old desk.new }
    ensures desk { desk.new.desk ≡ shut desk.old.desk venue }
{
    if usize::from(venue.number()) < desk.venues() {
        desk.shut(venue);
    }
}
