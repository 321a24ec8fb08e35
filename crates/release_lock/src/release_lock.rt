//! The desk behind a lock.

ghost use Rattle.std.specs.Prelude.{[], ◌∷◌, ◌++◌, ◌≡◌, ◌⊎◌, ◌+◌, ◌<◌, ◌≤◌, length, map, min, option_map};
ghost use Rattle.std.specs.Prelude.{IfOk, IsOkUnless, MatchResult, OnOk};
ghost use Rattle.std.specs.List.{All};
ghost use Rattle.std.specs.Fn.{FnOnceReturnsAtMut};
ghost use Rattle.crossbeam_queue.specs.Fifo.{Held};
ghost use Rattle.leg.specs.Answering.{Answers};
ghost use Rattle.venue_queue.specs.Rule.{EndsWith};
ghost use Rattle.share_ledger.specs.Entries.{sweep_shares};
ghost use Rattle.sweep_release.specs.Desk.{placed, gate_down};
ghost use Rattle.sweep_release.specs.History.{KeptDesk as ADesk, without_room};
ghost use Rattle.release_lock.specs.Held.{IsHeldBack, OnlyLowers, all_down};
ghost use Rattle.release_lock.specs.Locked.{IsPlacedWithin, Releases, ReleasesWithin, Replays};
ghost use Rattle.release_lock.specs.Queues.{IsFresh, new_drains, left_to, Pumps, raise};
ghost use Rattle.release_lock.specs.Seats.{first_seat, placing};

use crate::held_desk::HeldDesk;
use crate::holds::Holds;
use crate::venue_note::VenueNote;
use crate::{Asked, BlankDesk, CallerSeat, Declined, LockedDesk, OpenedDesk, Run, VenueDrain};
use agreed_list::SeatSide;
use exec_collector::{Accounts, Collector};
use kept_link::{Telling, Untold};
use leg::{Sweep, VenueId};
use std::alloc::{AllocError, Global};
use std::collections::VecDeque;
use std::sync::atomic::{AtomicBool, Ordering};
use std::sync::{Mutex, Wait};
use sweep_release::{Desk, GateFault, Receipt, ReleaseFault};
use venue_queue::{Drain, Feed};

/// The desk behind a lock, which all callers and workers share. Each call may wait for the lock.
#[derive(Drop)]
pub struct ReleaseLock<L: Run, J: Telling = Untold> {
    pub(crate) locked: Mutex<HeldDesk<L, J>>,
    pub(crate) notes: Vec<VenueNote>,
    pub(crate) halted: AtomicBool,
}

/// A new lock, the seat of its first caller, and the drains of the venues, in the order of their numbers.
#[derive(Drop)]
pub struct Opened<L: Run> {
    pub lock: ReleaseLock<L>,
    pub seat: CallerSeat<L>,
    pub drains: Vec<VenueDrain<L>>,
}

impl<L: Run> ReleaseLock<L> {
    /// A new desk of 1 to 16 venues behind a lock, with the feed of each venue's ring; the first seat, with all 1,024
    /// parts; and the drain of each ring. The rings have room for 64 legs, and nothing went through them. R07, and the
    /// rings are dropped.
    pub fn new(
        alloc: Global,
        venues: u8,
        blank: BlankDesk,
        rings: VecDeque<(Feed, Drain)>,
        sweeps: SeatSide<Sweep>,
    ) -> Result<Opened<L>, ReleaseFault>
        requires low { 1 ≤ venues }
        requires high { venues ≤ 16 }
        requires rings { (length rings.items ≡ venues) × All IsFresh rings.items }
        requires sweeps { (sweeps.name ≡ L.sweeps) × (sweeps.items ≡ []) }
        requires queues { L.queues ≡ map (λ ends. ends.0.table) rings.items }
        requires name { blank.name ≡ L.name }
        requires parts { (blank.parts ≡ L.parts) × (L.parts ≡ 1024) }
        requires slips { blank.slips ≡ L.slips }
        ensures seat { IfOk result (λ opened. opened.seat ≡ first_seat) }
        ensures drains { IfOk result (λ opened. opened.drains.items ≡ new_drains venues) }
        ensures only { IsOkUnless result ReleaseFault.OutOfMemory }
    {
        let OpenedDesk { desk, seat, drains } = LockedDesk::opened(
            alloc, venues, blank, rings, sweeps,
        )?;
        let lock = ReleaseLock::of_locked(alloc, desk)?;
        Ok(Opened { lock, seat, drains })
    }

    /// Releases a sweep under both locks, the desk's first: at the desk and in the collector's book, under one number,
    /// or in neither; the seat gains the sweep under that number, and its shares. Before it gives up the lock, each
    /// venue of the sweep's legs is pumped, so that a worker finds them without it. R01 to R08 in the order of `place`,
    /// and no venue is pumped.
    pub fn release<M: Accounts>(
        &self,
        rt: &impl Wait,
        collector: &Collector<M>,
        sweep: Sweep,
        seat: &mut CallerSeat<L>,
    ) -> Result<Receipt, ReleaseFault>
        requires tied { L.sweeps ≡ M.sweeps }
        ensures placed { (before : ADesk) × (after : ADesk) × Replays before × Replays after
            × Releases sweep.legs before result after }
        ensures seat { MatchResult result (λ receipt. (receipt.shares ≡ sweep_shares sweep.legs)
            × (seat.new.shares ≡ seat.old.shares + receipt.shares)) (λ _. seat.new ≡ seat.old) }
        ensures noted { IfOk result (λ receipt. seat.new.placed
            ≡ seat.old.placed ++ placing receipt.number sweep.legs ∷ []) }
        ensures parts { seat.new.parts ≡ seat.old.parts }
    {
        match self.release_asked(rt, collector, sweep, seat, &Asked::nothing()) {
            Ok(receipt) => Ok(receipt),
            Err(Declined::Fault(fault)) => Err(fault),
            Err(Declined::Over(_)) => unreachable!(),
        }
    }
}

impl<L: Run, J: Telling> ReleaseLock<L, J> {
    /// Releases a sweep under both locks, the desk's first: at the desk and in the collector's book, under one number,
    /// or in neither; the seat gains the sweep under that number, and its shares. The journal has then kept what was
    /// asked for. Before it gives up the lock, each venue of the sweep's legs is pumped, so that a worker finds them
    /// without it. Before all this the sweep is judged by the limits that are asked for, on the day as it stands under
    /// the lock: R11 to R15. Then R01 to R08 in the order of `place`. Declined, it changes nothing, and no venue is
    /// pumped.
    pub fn release_asked<M: Accounts>(
        &self,
        rt: &impl Wait,
        collector: &Collector<M>,
        sweep: Sweep,
        seat: &mut CallerSeat<L>,
        asked: &Asked<'_>,
    ) -> Result<Receipt, Declined>
        requires tied { L.sweeps ≡ M.sweeps }
        ensures placed { (before : ADesk) × (after : ADesk) × Replays before × Replays after
            × ReleasesWithin (option_map (λ l. l.now) asked.now.limits) sweep.legs before result after
            × OnOk result
            (IsPlacedWithin (option_map (λ l. l.now) asked.now.limits) sweep.legs before after) }
        ensures seat { MatchResult result (λ receipt. (receipt.shares ≡ sweep_shares sweep.legs)
            × (seat.new.shares ≡ seat.old.shares + receipt.shares)) (λ _. seat.new ≡ seat.old) }
        ensures noted { IfOk result (λ receipt. seat.new.placed
            ≡ seat.old.placed ++ placing receipt.number sweep.legs ∷ []) }
        ensures parts { seat.new.parts ≡ seat.old.parts }
    {
        let mut locked = self.locked.lock(rt);
        let answer = locked.release(rt, collector, sweep, seat, asked);
        self.take_notes(locked.desk());
        answer
    }

    /// Moves placed legs of a venue into its ring, in order, until none is placed or the ring was full at some moment
    /// of the call, and gives how many were pushed to it in all.
    pub fn pump(&self, rt: &impl Wait, venue: VenueId) -> u64
        requires { venue < length L.queues }
        ensures { (before : ADesk) × (after : ADesk) × Replays before × Replays after × Pumps venue before after
            × ((placed after.desk venue ≡ 0) ⊎ Held 64 (EndsWith (left_to after.desk venue)))
            × (result ≡ min (length (left_to after.desk venue)) 18446744073709551615) }
    {
        let mut locked = self.locked.lock(rt);
        let pushed = locked.pump(rt, venue);
        self.take_notes(locked.desk());
        pushed
    }

    /// Puts the gate of a drain's venue up, once every leg released to it was popped: an open gate stays so, G02 where
    /// it was shut, G01 where legs are still placed or in the ring or the venue is held, G03.
    pub fn raise(&self, rt: &impl Wait, drain: &VenueDrain<L>) -> Result<(), GateFault>
        ensures { (before : ADesk) × (after : ADesk) × Replays before × Replays after
            × ((Answers GateFault.OutOfMemory (without_room before)
            (raise (without_room before) drain.now.venue (length drain.now.popped)) result (without_room after))
            ⊎ IsHeldBack drain.now.venue before result after) }
    {
        let mut locked = self.locked.lock(rt);
        let answer = locked.raise(drain);
        if answer.is_ok() {
            self.take_raise(drain.venue());
        }
        answer
    }

    /// Lends the desk to a closure that only puts gates down or shuts them. It may ask the desk anything; it may not
    /// put a gate up, release, take or drop, nor ask for this lock.
    pub fn with<T, F: FnOnce(&mut Desk) -> T>(&self, rt: &impl Wait, f: F) -> T
        requires call { F.IsAlwaysCallable f }
        requires lowers { (d : ADesk) (r : T) (e : ADesk) → FnOnceReturnsAtMut F.FnOnce f d r e → OnlyLowers d e }
        ensures { (d : ADesk) × (e : ADesk) × Replays d × Replays e × FnOnceReturnsAtMut F.FnOnce f d result e }
    {
        let mut locked = self.locked.lock(rt);
        let given = locked.lend(f);
        self.take_notes(locked.desk());
        given
    }

    /// Holds each venue until `resume`: each gate that is up is put down in one step, and none is put up meanwhile. So
    /// no sweep is placed.
    pub fn halt(&self, rt: &impl Wait)
        ensures { (before : ADesk) × (after : ADesk) × Replays before × Replays after
            × (after.desk ≡ all_down before.desk) }
    {
        let mut locked = self.locked.lock(rt);
        locked.halt();
        self.take_holds(locked.holds());
    }

    /// The desk isn't halted any more: each venue that isn't paused may put its gate up again.
    pub fn resume(&self, rt: &impl Wait) {
        let mut locked = self.locked.lock(rt);
        locked.resume();
        self.take_holds(locked.holds());
    }

    /// Holds a venue until `unpause`: its gate is put down. Of the other venues nothing changes.
    pub fn pause(&self, rt: &impl Wait, venue: VenueId)
        ensures { (before : ADesk) × (after : ADesk) × Replays before × Replays after
            × (after.desk ≡ gate_down before.desk venue) }
    {
        let mut locked = self.locked.lock(rt);
        locked.pause(venue);
        self.take_holds(locked.holds());
    }

    /// The venue isn't paused any more. While the desk is halted it is still held.
    pub fn unpause(&self, rt: &impl Wait, venue: VenueId) {
        let mut locked = self.locked.lock(rt);
        locked.unpause(venue);
        self.take_holds(locked.holds());
    }

    /// Whether the desk is halted. It doesn't wait for the lock.
    pub fn is_halted(&self) -> bool {
        self.halted.load(Ordering::SeqCst)
    }

    /// Whether a venue is paused, as the last call noted that had the lock. It doesn't wait for the lock.
    pub fn is_paused(&self, venue: VenueId) -> bool {
        match self.notes.get(usize::from(venue.number())) {
            Some(note) => note.is_paused(),
            None => false,
        }
    }

    /// Whether a venue is held: it is paused, or the desk is halted. It doesn't wait for the lock.
    pub fn is_held(&self, venue: VenueId) -> bool {
        match self.notes.get(usize::from(venue.number())) {
            Some(note) => note.is_held(),
            None => false,
        }
    }

    /// Whether a venue was held, now or before, and its gate wasn't put up since. So its worker also learns of a hold
    /// that is over before it looks. It doesn't wait for the lock.
    pub fn is_lowered(&self, venue: VenueId) -> bool {
        match self.notes.get(usize::from(venue.number())) {
            Some(note) => note.is_lowered(),
            None => false,
        }
    }

    /// Whether a venue's worker may be sending a leg for which it saw no hold. Once this is false of a venue that is
    /// held, none is sent there any more.
    pub fn is_sending(&self, venue: VenueId) -> bool {
        match self.notes.get(usize::from(venue.number())) {
            Some(note) => note.is_sending(),
            None => false,
        }
    }

    /// A venue's worker says whether it may be sending a leg. It says so before it asks whether the venue is held.
    pub fn tell_sending(&self, venue: VenueId, sends: bool) {
        if let Some(note) = self.notes.get(usize::from(venue.number())) {
            note.tell_sending(sends);
        }
    }

    /// Whether the gate of a venue is shut, as the last call said that had the lock. It doesn't wait for the lock. Of a
    /// venue that the desk hasn't got it is false.
    pub fn is_shut(&self, venue: VenueId) -> bool {
        match self.notes.get(usize::from(venue.number())) {
            Some(note) => note.is_shut(),
            None => false,
        }
    }

    /// Whether legs are placed at a venue for which its ring had no room, as the last call said that had the lock: only
    /// then does a pump find any. It doesn't wait for the lock.
    pub fn is_behind(&self, venue: VenueId) -> bool {
        match self.notes.get(usize::from(venue.number())) {
            Some(note) => note.is_behind(),
            None => false,
        }
    }

    /// Takes note of each venue, for those who don't take the lock.
    fn take_notes(&self, desk: &Desk) {
        for note in &self.notes {
            note.take(desk);
        }
    }

    /// Takes note that the gate of a venue was put up.
    fn take_raise(&self, venue: VenueId) {
        if let Some(note) = self.notes.get(usize::from(venue.number())) {
            note.take_raise();
        }
    }

    /// Takes note of what is held.
    fn take_holds(&self, holds: &Holds) {
        for note in &self.notes {
            note.take_holds(holds);
        }
        self.halted.store(holds.halted, Ordering::SeqCst);
    }

    /// The desk and its count, once no thread shares the lock any more.
    pub fn into_locked(self) -> LockedDesk<L, J> {
        self.locked.into_inner().into_locked()
    }
}

/// A note of each venue, in the order of their numbers.
pub(crate) fn notes_of(alloc: Global, venues: u8) -> Result<Vec<VenueNote>, AllocError> {
    let mut notes = Vec::with_capacity(alloc, usize::from(venues))?;
    for number in 0..venues {
        if let Ok(venue) = VenueId::new(number) {
            notes.push(VenueNote::new(venue))?;
        }
    }
    Ok(notes)
}
