//! What one caller placed.

ghost use Rattle.std.specs.Prelude.{◌≡◌, ◌+◌, ◌<◌, ◌↔◌, ◌++◌, ◌∷◌, [], min, IfNone, IfSome, IsSome};
ghost use Rattle.share_ledger.specs.Entries.{sweep_shares};
ghost use Rattle.exec_collector.specs.Seats.{new_seat};
ghost use Rattle.exec_collector.specs.declared.placed_sweep.PlacedSweep.{PlacedSweep};
ghost use Rattle.release_lock.specs.Seats.{shares_in};

use crate::Run;
use exec_collector::PlacedSweep;
use slips::{SlipBook, Slips, no_slips};
use std::marker::Model;
use std::sync::ledger::{Book as Total, Share};
use sweep_release::Receipt;

/// A caller's part of the count: the sweeps that it released, and their shares. The seats of a run have 1,024 parts in
/// all. Contracts see a seat's parts, its sweeps, each under its number, in order, and their shares; nothing is asked
/// of the book on it.
#[derive(Drop)]
pub struct CallerSeat<L: Run> {
    pub(crate) parts: u64,
    pub(crate) shares: u64,
    pub(crate) share: Share<L>,
    pub(crate) slips: Slips<PlacedSweep>,
}

impl<L: Run> Model for CallerSeat<L> {
    ghost use Rattle.std.specs.Prelude.{◌≡◌, ◌<◌, [], None, min};
    ghost use Rattle.exec_collector.specs.Seats.{Seat};
    ghost use Rattle.release_lock.specs.Seats.{shares_in, count_in};

    ghost Value = { Seat };

    ghost view = { λ seat. record {
      parts = seat.share.parts;
      shares = shares_in seat.slips.held;
      venue = None;
      booked = [];
      asked = [];
      bookings = [];
      placed = seat.slips.held;
    } };

    ghost invariant = { λ seat. (L.parts ≡ 1024) × (seat.parts ≡ seat.share.parts) × (0 < seat.parts)
        × (seat.shares ≡ min (shares_in seat.slips.held) 18446744073709551615)
        × (seat.share.amount ≡ count_in seat.slips.held) × (seat.slips.name ≡ L.slips) };
}

impl<L: Run> CallerSeat<L> {
    /// Gives away one of the seat's parts, with no shares; `None` where it has one. It takes no memory.
    pub fn split(&mut self) -> Option<CallerSeat<L>>
        ensures some { IsSome result ↔ (1 < self.old.parts) }
        ensures given { IfSome result (λ seat. (seat ≡ new_seat) × (self.new.parts + 1 ≡ self.old.parts)
            × (self.new.shares ≡ self.old.shares)) }
        ensures placed { self.new.placed ≡ self.old.placed }
        ensures none { IfNone result (self.new ≡ self.old) }
    {
        if self.parts == 1 {
            return None;
        }
        let share = self.share.split_off(1, 0);
        self.parts -= 1;
        Some(CallerSeat {
            parts: 1,
            shares: 0,
            share,
            slips: no_slips(),
        })
    }

    /// Takes in another caller's seat, whose sweeps stand behind its own. It takes no memory.
    #[tactic(auto, using(crate::proofs::Shares::shares_append, crate::proofs::Shares::count_append))]
    pub fn join(&mut self, other: CallerSeat<L>)
        ensures parts { self.new.parts ≡ self.old.parts + other.parts }
        ensures shares { self.new.shares ≡ self.old.shares + other.shares }
        ensures placed { self.new.placed ≡ self.old.placed ++ other.placed }
    {
        let CallerSeat {
            parts,
            shares,
            share,
            mut slips,
        } = other;
        self.share.merge(share);
        self.parts += parts;
        self.shares = self.shares.saturating_add(shares);
        self.slips.join(&mut slips);
    }

    /// The shares counted on it, up to the greatest number of its type; under the lock at most 10^18. They are those of
    /// its sweeps.
    pub fn shares(&self) -> u64
        ensures value { result ≡ min self.now.shares 18446744073709551615 }
        ensures placed { self.now.shares ≡ shares_in self.now.placed }
    {
        self.shares
    }

    /// Counts a sweep that was placed: its shares, and one for itself, on the seat and in the total. The book gives the
    /// seat a slip for it.
    #[tactic(auto, using(crate::proofs::Shares::shares_push, crate::proofs::Shares::count_push))]
    pub(crate) fn count(
        &mut self,
        total: &mut Total<L>,
        book: &mut SlipBook<PlacedSweep>,
        receipt: Receipt,
    )
        ghost placed: { PlacedSweep }
        requires book { book.old.name ≡ L.slips }
        requires shares { receipt.shares ≡ sweep_shares placed.sweep.legs }
        ensures seat { self.new.shares ≡ self.old.shares + receipt.shares }
        ensures parts { self.new.parts ≡ self.old.parts }
        ensures placed { self.new.placed ≡ self.old.placed ++ placed ∷ [] }
        ensures total { total.new.total ≡ total.old.total + receipt.shares + 1 }
        ensures book { (book.new.name ≡ book.old.name) × (book.new.given ≡ book.old.given ++ placed ∷ []) }
    {
        total.add(&mut self.share, receipt.shares);
        total.add(&mut self.share, 1);
        self.shares = self.shares.saturating_add(receipt.shares);
        book.give(&mut self.slips);
    }
}
