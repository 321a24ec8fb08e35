//! The desk, the count of what its callers placed, and the feeds of the venues' rings.

ghost use Rattle.std.specs.Prelude.{◌≡◌, ◌⊎◌, ◌+◌, ◌*◌, ◌^◌, ◌<◌, ◌≤◌, ◌++◌, ◌∷◌, [], List, length, min, option_map};
ghost use Rattle.std.specs.Prelude.{IfOk, IfSome, OnOk, MatchResult};
ghost use Rattle.std.specs.Fn.{FnOnceReturnsAtMut};
ghost use Rattle.crossbeam_queue.specs.Fifo.{Held};
ghost use Rattle.leg.specs.Answering.{Answers};
ghost use Rattle.leg.specs.declared.sweep.Routed.{Routed as ARouted};
ghost use Rattle.venue_queue.specs.Rule.{EndsWith};
ghost use Rattle.share_ledger.specs.Entries.{sweep_shares};
ghost use Rattle.sweep_release.specs.Desk.{placed};
ghost use Rattle.sweep_release.specs.History.{KeptDesk as ADesk, without_room};
ghost use Rattle.sweep_release.specs.Place.{kept, place_kept, PlaceAnswers};
ghost use Rattle.exec_collector.specs.Resolved.{OnlyOpens};
ghost use Rattle.order_limits.specs.Day.{MayComeToIf, judged_if, with_sweep};
ghost use Rattle.order_limits.specs.Within.{IsWithin};
ghost use Rattle.release_lock.specs.Held.{OnlyLowers};
ghost use Rattle.release_lock.specs.Locked.{IsPlacedWithin, Places, Releases};
ghost use Rattle.release_lock.specs.Locked.{ReleasesWithin, Replays, day_dollars};
ghost use Rattle.release_lock.specs.Queues.{left_to, Pumps, raise};
ghost use Rattle.release_lock.specs.Seats.{placing};

use crate::asked::Asked;
use crate::noting::note_placed;
use crate::pumping::{pump, pump_each};
use crate::sweep_venues::SweepVenues;
use crate::{CallerSeat, Declined, Run, VenueDrain};
use agreed_list::SeatSide;
use exec_collector::{Accounts, Collector, PlacedSweep};
use kept_link::{Telling, Untold};
use leg::{Routed, Sweep, VenueId};
use order_limits::{Dollars, Excess, judge};
use share_ledger::Book;
use slips::SlipBook;
use std::marker::Model;
use std::sync::Wait;
use std::sync::ledger::Book as Total;
use sweep_release::{Desk, Gate, GateFault, Receipt, ReleaseFault, place};
use venue_queue::Feed;

/// What lies under the lock. Contracts see the desk. It replays from its own history, the seats add up to the shares of
/// all sweeps released, a slip was given for each of these, the dollars are what they come to, and what was pushed to a
/// venue is the first of the legs released to it, just as many as have left the desk.
#[derive(Drop)]
pub struct LockedDesk<L: Run, J: Telling = Untold> {
    pub(crate) desk: Desk,
    pub(crate) total: Total<L>,
    pub(crate) feeds: Vec<Feed>,
    pub(crate) sweeps: SeatSide<Sweep>,
    pub(crate) book: SlipBook<PlacedSweep>,
    pub(crate) dollars: Dollars,
    pub(crate) journal: J,
}

impl<L: Run, J: Telling> Model for LockedDesk<L, J> {
    ghost use Rattle.sweep_release.specs.History.{KeptDesk};
    ghost use Rattle.release_lock.specs.Locked.{IsLocked, IsDeskSide, IsDeskBook, IsDeskDollars};
    ghost use Rattle.release_lock.specs.Noted.{IsNoted};

    ghost Value = { KeptDesk };

    ghost view = { λ locked. locked.desk };

    ghost invariant = { λ locked. IsLocked L.queues locked.desk locked.total.total locked.feeds.items
        × IsDeskSide L.sweeps locked.desk locked.sweeps.name locked.sweeps.items
        × IsDeskBook L.slips locked.desk locked.book.name locked.book.given
        × IsNoted locked.desk (J.told locked.journal) × IsDeskDollars locked.desk locked.dollars };
}

impl<L: Run, J: Telling> LockedDesk<L, J> {
    /// The desk.
    pub fn desk(&self) -> &Desk
        ensures value { result.now ≡ self.now }
        ensures replays { Replays self.now }
        ensures venues { length self.now.desk.venues ≡ length L.queues }
    {
        &self.desk
    }

    /// What the day comes to with a sweep of these legs, or the first limit that it is over.
    #[tactic(auto, using(crate::proofs::DayDollars::few_dollars))]
    fn judge(&self, asked: &Asked<'_>, legs: &[Routed]) -> Result<Dollars, Excess>
        ensures judged { result
            ≡ judged_if (option_map (λ l. l.now) asked.now.limits) (day_dollars self.now) legs.now }
        ensures within { OnOk result (IfSome (option_map (λ l. l.now) asked.now.limits)
            (λ parts. IsWithin parts (day_dollars self.now) legs.now)) }
        ensures sum { IfOk result (λ day. day ≡ with_sweep (day_dollars self.now) legs.now) }
        ensures limit { IfOk result (MayComeToIf (option_map (λ l. l.now) asked.now.limits)) }
        ensures few { IfOk result (λ day. day.ten_thousandths
            ≤ (day_dollars self.now).ten_thousandths + 10 ^ 16 * length legs.now) }
        ensures replays { Replays self.now }
    {
        judge(asked.limits, self.dollars, legs)
    }

    /// Releases a sweep at the desk and opens it in the collector's book, under one number, or does neither; the seat
    /// gains the sweep under that number, and its shares, and the journal has kept what was asked for. Then each venue
    /// of its legs is pumped, in the order of the venues' numbers. Before all this the sweep is judged by the limits
    /// that are asked for, R11 to R15; then come R01 to R08 in the order of `place`. A declined sweep is dropped,
    /// no venue is pumped, and nothing else changes.
    pub fn release<M: Accounts>(
        &mut self,
        rt: &impl Wait,
        collector: &Collector<M>,
        sweep: Sweep,
        seat: &mut CallerSeat<L>,
        asked: &Asked<'_>,
    ) -> Result<Receipt, Declined>
        requires tied { L.sweeps ≡ M.sweeps }
        ensures released { ReleasesWithin (option_map (λ l. l.now) asked.now.limits) sweep.legs self.old result
            self.new }
        ensures within { OnOk result
            (IsPlacedWithin (option_map (λ l. l.now) asked.now.limits) sweep.legs self.old self.new) }
        ensures replays { Replays self.old × Replays self.new }
        ensures seat { MatchResult result (λ receipt. (receipt.shares ≡ sweep_shares sweep.legs)
            × (seat.new.shares ≡ seat.old.shares + receipt.shares)) (λ _. seat.new ≡ seat.old) }
        ensures noted { IfOk result (λ receipt. seat.new.placed
            ≡ seat.old.placed ++ placing receipt.number sweep.legs ∷ []) }
        ensures parts { seat.new.parts ≡ seat.old.parts }
    {
        let day = match self.judge(asked, sweep.legs.as_slice()) {
            Ok(day) => day,
            Err(excess) => return Err(Declined::Over(excess)),
        };
        match self.release_within(rt, collector, sweep, seat, asked, day) {
            Ok(receipt) => Ok(receipt),
            Err(fault) => Err(Declined::Fault(fault)),
        }
    }

    /// Releases a sweep with which the day comes to this, and pumps its venues.
    fn release_within<M: Accounts>(
        &mut self,
        rt: &impl Wait,
        collector: &Collector<M>,
        sweep: Sweep,
        seat: &mut CallerSeat<L>,
        asked: &Asked<'_>,
        day: Dollars,
    ) -> Result<Receipt, ReleaseFault>
        requires tied { L.sweeps ≡ M.sweeps }
        requires day { day ≡ with_sweep (day_dollars self.old) sweep.legs }
        requires few { day.ten_thousandths ≤ (day_dollars self.old).ten_thousandths + 10 ^ 16 * length sweep.legs }
        ensures released { Releases sweep.legs self.old result self.new }
        ensures dollars { OnOk result (day_dollars self.new ≡ day) }
        ensures replays { Replays self.old × Replays self.new }
        ensures seat { MatchResult result (λ receipt. (receipt.shares ≡ sweep_shares sweep.legs)
            × (seat.new.shares ≡ seat.old.shares + receipt.shares)) (λ _. seat.new ≡ seat.old) }
        ensures noted { IfOk result (λ receipt. seat.new.placed
            ≡ seat.old.placed ++ placing receipt.number sweep.legs ∷ []) }
        ensures parts { seat.new.parts ≡ seat.old.parts }
    {
        let venues = SweepVenues::of(sweep.legs.as_slice());
        let receipt = self.place_sweep(rt, collector, sweep, seat, asked, day)?;
        pump_each(rt, self, &venues);
        Ok(receipt)
    }

    /// Releases a sweep of these legs, with which the day comes to this, and opens it in the book, or does neither; the
    /// seat gains it, and its shares.
    fn place_sweep<M: Accounts>(
        &mut self,
        rt: &impl Wait,
        collector: &Collector<M>,
        sweep: Sweep,
        seat: &mut CallerSeat<L>,
        asked: &Asked<'_>,
        day: Dollars,
    ) -> Result<Receipt, ReleaseFault>
        ghost legs: { List ARouted }
        requires tied { L.sweeps ≡ M.sweeps }
        requires legs { legs ≡ sweep.legs }
        requires day { day ≡ with_sweep (day_dollars self.old) sweep.legs }
        requires few { day.ten_thousandths ≤ (day_dollars self.old).ten_thousandths + 10 ^ 16 * length sweep.legs }
        ensures placed { Places sweep.legs self.old result self.new }
        ensures dollars { OnOk result (day_dollars self.new ≡ day) }
        ensures replays { Replays self.old × Replays self.new }
        ensures seat { MatchResult result (λ receipt. (receipt.shares ≡ sweep_shares sweep.legs)
            × (seat.new.shares ≡ seat.old.shares + receipt.shares)) (λ _. seat.new ≡ seat.old) }
        ensures noted { IfOk result (λ receipt. seat.new.placed
            ≡ seat.old.placed ++ placing receipt.number sweep.legs ∷ []) }
        ensures parts { seat.new.parts ≡ seat.old.parts }
    {
        let LockedDesk {
            desk,
            total,
            feeds: _,
            sweeps,
            book,
            dollars,
            journal,
        } = self;
        let receipt = collector.lend_beside(
            rt,
            desk,
            sweeps,
            |desk: &mut Desk, book: &mut Book| { place_in(desk, book, sweep) },
        )?;
        note_placed(rt, journal, receipt.number, asked);
        seat.count(total, book, receipt);
        *dollars = day;
        Ok(receipt)
    }

    /// Moves placed legs of a venue into its ring, in order, until none is placed or the ring was full at some moment
    /// of the call, and gives how many were pushed to it in all. Each leg leaves the desk, taken while the gate is up
    /// and dropped while it isn't, once it is in the ring. It takes no memory.
    pub fn pump(&mut self, rt: &impl Wait, venue: VenueId) -> u64
        requires { venue < length L.queues }
        ensures desk { Pumps venue self.old self.new }
        ensures done { (placed self.new.desk venue ≡ 0) ⊎ Held 64 (EndsWith (left_to self.new.desk venue)) }
        ensures count { result ≡ min (length (left_to self.new.desk venue)) 18446744073709551615 }
        ensures replays { Replays self.old × Replays self.new }
    {
        let LockedDesk {
            desk,
            total: _,
            feeds,
            sweeps: _,
            book: _,
            dollars: _,
            journal: _,
        } = self;
        pump(rt, desk, venue, &mut feeds[usize::from(venue.number())])
    }

    /// Puts the gate of a drain's venue up, as `Desk::gate_up` does, once every leg released to it was popped: an open
    /// gate stays so, G02 where it was shut, G01 where legs are still placed or in the ring, G03.
    pub fn raise(&mut self, drain: &VenueDrain<L>) -> Result<(), GateFault>
        ensures answer { Answers GateFault.OutOfMemory (without_room self.old)
            (raise (without_room self.old) drain.now.venue (length drain.now.popped)) result (without_room self.new) }
        ensures replays { Replays self.old × Replays self.new }
    {
        let venue = drain.venue();
        let released = self.desk.released(venue).len() as u64;
        if self.desk.gate(venue) == Gate::Down && drain.popped() < released {
            return Err(GateFault::NotDrained);
        }
        self.desk.gate_up(venue)
    }

    /// Lends the desk to a closure that only puts gates down or shuts them. It may ask the desk anything; it may not
    /// put a gate up, release, take or drop.
    pub fn lend<T, F: FnOnce(&mut Desk) -> T>(&mut self, f: F) -> T
        requires call { F.IsAlwaysCallable f }
        requires lowers { (d : ADesk) (r : T) (e : ADesk) → FnOnceReturnsAtMut F.FnOnce f d r e → OnlyLowers d e }
        ensures call { FnOnceReturnsAtMut F.FnOnce f self.old result self.new }
        ensures replays { Replays self.old × Replays self.new }
    {
        f(&mut self.desk)
    }
}

/// Places a sweep. In the book it is opened, and nothing else is asked of it.
fn place_in(desk: &mut Desk, book: &mut Book, sweep: Sweep) -> Result<Receipt, ReleaseFault>
    ensures placed { PlaceAnswers (kept desk.old book.old) (place_kept (kept desk.old book.old) sweep.legs) result
        (kept desk.new book.new) }
    ensures opens { OnlyOpens book.old book.new }
{
    place(desk, book, sweep)
}
