//! What the worker of a venue resolved and booked.

ghost use Rattle.std.specs.Prelude.{◌≡◌, ◌+◌, ◌<◌, ◌≤◌, ◌++◌, ◌∷◌, [], Some, min, slice_get, IfSome};
ghost use Rattle.exec_collector.specs.Booked.{notes_of, asked_of};
ghost use Rattle.exec_collector.specs.Seats.{worker_seat};
ghost use Rattle.exec_collector.specs.declared.booking.Booking.{Booking};

use crate::{Accounts, Booking};
use agreed_list::{BookSide, SeatSide};
use leg::VenueId;
use std::marker::Model;
use std::sync::ledger::{Book as Total, Share};

/// A worker's part of the count: the shares that ceased to be open by its calls. Contracts see its parts of the ledger,
/// its shares, its venue, and what was asked of the book on it.
#[derive(Drop)]
pub struct WorkerSeat<M: Accounts> {
    pub(crate) venue: VenueId,
    pub(crate) shares: u64,
    pub(crate) share: Share<M>,
    pub(crate) bookings: SeatSide<Booking>,
}

impl<M: Accounts> Model for WorkerSeat<M> {
    ghost use Rattle.std.specs.Prelude.{◌≡◌, ◌<◌, [], Some, min, slice_get};
    ghost use Rattle.exec_collector.specs.Booked.{notes_of, asked_of};
    ghost use Rattle.exec_collector.specs.Seats.{Seat};

    ghost Value = { Seat };

    ghost view = { λ seat. record {
      parts = seat.share.parts;
      shares = seat.share.amount;
      venue = Some seat.venue;
      booked = notes_of seat.bookings.items;
      asked = asked_of seat.bookings.items;
      bookings = seat.bookings.items;
      placed = [];
    } };

    ghost invariant = { λ seat. (0 < seat.share.parts) × (seat.shares ≡ min seat.share.amount 18446744073709551615)
        × (slice_get M.lists seat.venue ≡ Some seat.bookings.name) };
}

impl<M: Accounts> WorkerSeat<M> {
    /// A seat of one part of the ledger, on which nothing was counted or asked yet.
    pub(crate) fn new(venue: VenueId, share: Share<M>, bookings: SeatSide<Booking>) -> WorkerSeat<M>
        requires share { (share.parts ≡ 1) × (share.amount ≡ 0) }
        requires list { (slice_get M.lists venue ≡ Some bookings.name) × (bookings.items ≡ []) }
        ensures { result ≡ worker_seat venue }
    {
        WorkerSeat {
            venue,
            shares: 0,
            share,
            bookings,
        }
    }

    /// The venue whose worker has it.
    pub fn venue(&self) -> VenueId
        ensures { self.now.venue ≡ Some result }
    {
        self.venue
    }

    /// Takes in another worker's seat, but nothing of what was asked on that.
    pub fn join(&mut self, other: WorkerSeat<M>)
        ensures parts { self.new.parts ≡ self.old.parts + other.parts }
        ensures shares { self.new.shares ≡ self.old.shares + other.shares }
        ensures booked { (self.new.booked ≡ self.old.booked) × (self.new.asked ≡ self.old.asked)
            × (self.new.bookings ≡ self.old.bookings) }
        ensures venue { self.new.venue ≡ self.old.venue }
    {
        let WorkerSeat {
            venue: _,
            shares,
            share,
            bookings: _,
        } = other;
        self.share.merge(share);
        self.shares = self.shares.saturating_add(shares);
    }

    /// The shares counted on it, up to the greatest number of its type; under the lock at most 10^18.
    pub fn shares(&self) -> u64
        ensures { result ≡ min self.now.shares 18446744073709551615 }
    {
        self.shares
    }

    /// Counts shares on the seat and in the total.
    pub(crate) fn count(&mut self, total: &mut Total<M>, shares: u64)
        requires { total.old.total + shares ≤ 1000000000000000000 }
        ensures seat { self.new.shares ≡ self.old.shares + shares }
        ensures parts { self.new.parts ≡ self.old.parts }
        ensures booked { (self.new.booked ≡ self.old.booked) × (self.new.asked ≡ self.old.asked)
            × (self.new.bookings ≡ self.old.bookings) }
        ensures venue { self.new.venue ≡ self.old.venue }
        ensures total { total.new.total ≡ total.old.total + shares }
    {
        total.add(&mut self.share, shares);
        total.audit(&mut self.share);
        self.shares += shares;
    }

    /// One booking more is on it, and on the book's side.
    pub(crate) fn book(&mut self, side: &mut BookSide<Booking>)
        ghost booking: { Booking }
        requires list { IfSome self.old.venue (λ venue. slice_get M.lists venue ≡ Some side.old.name) }
        ensures agreed { side.old.items ≡ self.old.bookings }
        ensures side { (side.new.name ≡ side.old.name) × (side.new.items ≡ side.old.items ++ booking ∷ []) }
        ensures seat { self.new ≡ record self.old {
          booked = self.old.booked ++ notes_of (booking ∷ []);
          asked = self.old.asked ++ asked_of (booking ∷ []);
          bookings = self.old.bookings ++ booking ∷ [];
        } }
    {
        side.push(&mut self.bookings);
    }

    /// Changes nothing, and tells that the book's side has the same bookings.
    pub(crate) fn compare(&mut self, side: &mut BookSide<Booking>)
        requires list { IfSome self.old.venue (λ venue. slice_get M.lists venue ≡ Some side.old.name) }
        ensures agreed { side.old.items ≡ self.old.bookings }
        ensures side { (side.new.name ≡ side.old.name) × (side.new.items ≡ side.old.items) }
        ensures same { self.new ≡ self.old }
    {
        side.compare(&mut self.bookings);
    }
}
