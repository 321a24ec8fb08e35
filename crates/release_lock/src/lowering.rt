//! Gates are put down.

ghost use Rattle.std.specs.Prelude.{◌≡◌};
ghost use Rattle.sweep_release.specs.Desk.{gate_down};
ghost use Rattle.release_lock.specs.Held.{OnlyLowers, all_down};
ghost use Rattle.release_lock.specs.Locked.{Replays};

use crate::{LockedDesk, Run};
use kept_link::Telling;
use leg::VenueId;
use sweep_release::Desk;

/// Puts the gate of a venue down, if the desk has it and it is up.
pub fn let_down(desk: &mut Desk, venue: VenueId)
    ensures lowers { OnlyLowers desk.old desk.new }
    ensures down { desk.new.desk ≡ gate_down desk.old.desk venue }
{
    if usize::from(venue.number()) < desk.venues() {
        desk.gate_down(venue);
    }
}

impl<L: Run, J: Telling> LockedDesk<L, J> {
    /// Puts the gate of a venue down, if it is up.
    pub(crate) fn lower(&mut self, venue: VenueId)
        ensures down { self.new.desk ≡ gate_down self.old.desk venue }
        ensures replays { Replays self.old × Replays self.new }
    {
        self.lend(|desk: &mut Desk| let_down(desk, venue));
    }

    /// Puts each gate down that is up.
    pub(crate) fn lower_all(&mut self)
        ensures down { self.new.desk ≡ all_down self.old.desk }
        ensures replays { Replays self.old × Replays self.new }
    {
        let count = self.desk().venues();
        for number in 0..count {
            let Ok(venue) = VenueId::new(number as u8) else {
                unreachable!()
            };
            self.lower(venue);
        }
    }
}
