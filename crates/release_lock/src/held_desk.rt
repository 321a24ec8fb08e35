//! The desk under its lock, and which of its venues are held.

ghost use Rattle.std.specs.Prelude.{◌≡◌, ◌⊎◌, ◌+◌, ◌<◌, ◌++◌, ◌∷◌, [], length, min, option_map};
ghost use Rattle.std.specs.Prelude.{IfOk, OnOk, MatchResult};
ghost use Rattle.std.specs.Fn.{FnOnceReturnsAtMut};
ghost use Rattle.crossbeam_queue.specs.Fifo.{Held};
ghost use Rattle.leg.specs.Answering.{Answers};
ghost use Rattle.venue_queue.specs.Rule.{EndsWith};
ghost use Rattle.share_ledger.specs.Entries.{sweep_shares};
ghost use Rattle.sweep_release.specs.Desk.{placed, gate_down};
ghost use Rattle.sweep_release.specs.History.{KeptDesk as ADesk, without_room};
ghost use Rattle.release_lock.specs.Held.{IsHeldBack, OnlyLowers, all_down};
ghost use Rattle.release_lock.specs.Locked.{IsPlacedWithin, ReleasesWithin, Replays};
ghost use Rattle.release_lock.specs.Queues.{left_to, Pumps, raise};
ghost use Rattle.release_lock.specs.Seats.{placing};

use crate::asked::Asked;
use crate::holds::Holds;
use crate::{CallerSeat, Declined, LockedDesk, Run, VenueDrain};
use exec_collector::{Accounts, Collector};
use kept_link::{Telling, Untold};
use leg::{Sweep, VenueId};
use std::marker::Model;
use std::sync::Wait;
use sweep_release::{Desk, GateFault, Receipt};

/// The desk under its lock, and which of its venues are held: no gate of theirs is up. Contracts see the desk, which
/// replays from its own history.
#[derive(Drop)]
pub(crate) struct HeldDesk<L: Run, J: Telling = Untold> {
    pub(crate) locked: LockedDesk<L, J>,
    pub(crate) holds: Holds,
}

impl<L: Run, J: Telling> Model for HeldDesk<L, J> {
    ghost use Rattle.sweep_release.specs.History.{KeptDesk};
    ghost use Rattle.release_lock.specs.Held.{KeepsDown};
    ghost use Rattle.release_lock.specs.Locked.{Replays};

    ghost Value = { KeptDesk };

    ghost view = { λ held. held.locked };

    ghost invariant = { λ held. KeepsDown held.holds.halted held.holds.paused held.locked.desk
        × Replays held.locked };
}

impl<L: Run, J: Telling> HeldDesk<L, J> {
    /// A desk of which no venue is held.
    pub fn free(locked: LockedDesk<L, J>) -> HeldDesk<L, J>
        requires { Replays locked }
        ensures { result ≡ locked }
    {
        HeldDesk {
            locked,
            holds: Holds::none(),
        }
    }

    /// The desk.
    pub fn desk(&self) -> &Desk
        ensures value { result.now ≡ self.now }
        ensures replays { Replays self.now }
    {
        self.locked.desk()
    }

    /// Which venues are held.
    pub fn holds(&self) -> &Holds {
        &self.holds
    }

    /// The desk by itself.
    pub fn into_locked(self) -> LockedDesk<L, J>
        ensures { result ≡ self }
    {
        self.locked
    }

    /// Releases a sweep, as `LockedDesk::release` does.
    pub fn release<M: Accounts>(
        &mut self,
        rt: &impl Wait,
        collector: &Collector<M>,
        sweep: Sweep,
        seat: &mut CallerSeat<L>,
        asked: &Asked<'_>,
    ) -> Result<Receipt, Declined>
        requires tied { L.sweeps ≡ M.sweeps }
        ensures released { ReleasesWithin (option_map (λ l. l.now) asked.now.limits) sweep.legs self.old result
            self.new }
        ensures within { OnOk result
            (IsPlacedWithin (option_map (λ l. l.now) asked.now.limits) sweep.legs self.old self.new) }
        ensures replays { Replays self.old × Replays self.new }
        ensures seat { MatchResult result (λ receipt. (receipt.shares ≡ sweep_shares sweep.legs)
            × (seat.new.shares ≡ seat.old.shares + receipt.shares)) (λ _. seat.new ≡ seat.old) }
        ensures noted { IfOk result (λ receipt. seat.new.placed
            ≡ seat.old.placed ++ placing receipt.number sweep.legs ∷ []) }
        ensures parts { seat.new.parts ≡ seat.old.parts }
    {
        self.locked.release(rt, collector, sweep, seat, asked)
    }

    /// Pumps a venue, as `LockedDesk::pump` does.
    pub fn pump(&mut self, rt: &impl Wait, venue: VenueId) -> u64
        requires { venue < length L.queues }
        ensures desk { Pumps venue self.old self.new }
        ensures done { (placed self.new.desk venue ≡ 0) ⊎ Held 64 (EndsWith (left_to self.new.desk venue)) }
        ensures count { result ≡ min (length (left_to self.new.desk venue)) 18446744073709551615 }
        ensures replays { Replays self.old × Replays self.new }
    {
        self.locked.pump(rt, venue)
    }

    /// Puts the gate of a drain's venue up, as `LockedDesk::raise` does. While the venue is held the gate stays down,
    /// and the answer is G01.
    pub fn raise(&mut self, drain: &VenueDrain<L>) -> Result<(), GateFault>
        ensures answer { (Answers GateFault.OutOfMemory (without_room self.old)
            (raise (without_room self.old) drain.now.venue (length drain.now.popped)) result (without_room self.new))
            ⊎ IsHeldBack drain.now.venue self.old result self.new }
        ensures replays { Replays self.old × Replays self.new }
    {
        if self.holds.is_held(drain.venue()) {
            return Err(GateFault::NotDrained);
        }
        self.locked.raise(drain)
    }

    /// Lends the desk to a closure that only puts gates down or shuts them.
    pub fn lend<T, F: FnOnce(&mut Desk) -> T>(&mut self, f: F) -> T
        requires call { F.IsAlwaysCallable f }
        requires lowers { (d : ADesk) (r : T) (e : ADesk) → FnOnceReturnsAtMut F.FnOnce f d r e → OnlyLowers d e }
        ensures call { FnOnceReturnsAtMut F.FnOnce f self.old result self.new }
        ensures replays { Replays self.old × Replays self.new }
    {
        self.locked.lend(f)
    }

    /// The desk is halted: each venue is held, and each gate that was up is put down.
    pub fn halt(&mut self)
        ensures down { self.new.desk ≡ all_down self.old.desk }
        ensures replays { Replays self.old × Replays self.new }
    {
        self.locked.lower_all();
        self.holds.halted = true;
    }

    /// It isn't halted any more. The gates stay as they are.
    pub fn resume(&mut self)
        ensures same { self.new ≡ self.old }
        ensures replays { Replays self.old }
    {
        self.holds.halted = false;
    }

    /// A venue is paused: its gate is put down, if it was up.
    pub fn pause(&mut self, venue: VenueId)
        ensures down { self.new.desk ≡ gate_down self.old.desk venue }
        ensures replays { Replays self.old × Replays self.new }
    {
        self.locked.lower(venue);
        self.holds.paused[usize::from(venue.number())] = true;
    }

    /// It isn't paused any more. The gates stay as they are.
    pub fn unpause(&mut self, venue: VenueId)
        ensures same { self.new ≡ self.old }
        ensures replays { Replays self.old }
    {
        self.holds.paused[usize::from(venue.number())] = false;
    }
}
