//! The book, and the count of what its venues have resolved.

ghost use Rattle.std.specs.Prelude.{◌≡◌, ◌⊎◌, ◌+◌, ◌≤◌, ◌++◌, ◌∷◌, [], length, IfSome, IsOkUnless, IsSome, MatchResult, OnErr, OnOk};
ghost use Rattle.std.specs.Fn.{FnOnceReturnsAt, FnOnceReturnsAtMut};
ghost use Rattle.leg.specs.Answering.{Answers};
ghost use Rattle.share_ledger.specs.Book.{BookParts, answer_to};
ghost use Rattle.exec_collector.specs.Booked.{IsKept, withdraw_of};
ghost use Rattle.exec_collector.specs.Calls.{CallGives, CallReads};
ghost use Rattle.exec_collector.specs.Opened.{IsSide};
ghost use Rattle.exec_collector.specs.Resolved.{Replays, OnlyOpens, GainsBy, GainsLeg, resolved, sum_below};
ghost use Rattle.exec_collector.specs.Unbooked.{IsListOf, WereUnbooked, give, without_room};

use crate::opened_sweeps::keep_opened;
use crate::unbooked::{Unbooked, give_note};
use crate::venue_bookings::{VenueBookings, add_note, add_withdrawal};
use crate::{Accounts, WorkerSeat};
use agreed_list::{BookSide, SeatSide};
use dialect::Note;
use leg::{LegId, Sweep, Totals, VenueId};
use share_ledger::{Applied, Book, BookFault};
use std::marker::Model;
use std::sync::ledger::Book as Total;

/// What lies under the collector's lock. Contracts see the book, the list of the notes that it didn't take, and for how
/// many notes that has room. The book
/// replays from its own history, the seats add up to the shares that its venues have resolved, and each venue's notes
/// and withdrawals in it are those that the book took on the seat of the venue. The notes given on that seat that it
/// didn't take are those of the list.
#[derive(Drop)]
pub struct CountedBook<M: Accounts> {
    pub(crate) venues: u8,
    pub(crate) book: Book,
    pub(crate) unbooked: Vec<Unbooked>,
    pub(crate) total: Total<M>,
    pub(crate) bookings: Vec<VenueBookings>,
    pub(crate) sweeps: BookSide<Sweep>,
}

impl<M: Accounts> Model for CountedBook<M> {
    ghost use Rattle.std.specs.Prelude.{◌≡◌, ◌≤◌, map, vec_capacity};
    ghost use Rattle.exec_collector.specs.Resolved.{Replays, resolved};
    ghost use Rattle.exec_collector.specs.Sides.{AreWritten, AreListed};
    ghost use Rattle.exec_collector.specs.Unbooked.{KeptCounted, IsListOf};
    ghost use Rattle.exec_collector.specs.Opened.{IsSide};

    ghost Value = { KeptCounted };

    ghost view = { λ counted. record {
      book = counted.book;
      unbooked = counted.unbooked.items;
      room = vec_capacity counted.unbooked;
    } };

    ghost invariant = { λ counted. (counted.venues ≡ counted.book.venues) × (counted.venues ≤ 16)
        × Replays counted.book × (counted.total.total ≡ resolved counted.book)
        × (map (λ venue. venue.side.name) counted.bookings.items ≡ M.lists)
        × AreWritten counted.book 0 counted.bookings.items
        × IsSide M.sweeps counted.book counted.sweeps.name counted.sweeps.items
        × AreListed counted.unbooked.items 0 counted.bookings.items × IsListOf counted.book counted.unbooked.items };
}

impl<M: Accounts> CountedBook<M> {
    /// The book.
    pub fn book(&self) -> &Book
        ensures value { result.now ≡ self.now.book }
        ensures replays { Replays self.now.book }
    {
        &self.book
    }

    /// The notes that the book didn't take, in the order in which they were given.
    pub fn unbooked(&self) -> &[Unbooked]
        ensures value { result.now ≡ self.now.unbooked }
        ensures list { IsListOf self.now.book self.now.unbooked }
    {
        self.unbooked.as_slice()
    }

    /// The shares that the venues have resolved, at most 10^18.
    pub fn resolved(&self) -> u64
        ensures value { result ≡ resolved self.now.book }
        ensures few { result ≤ 1000000000000000000 }
        ensures replays { Replays self.now.book }
        ensures list { IsListOf self.now.book self.now.unbooked }
    {
        resolved_in(&self.book, self.venues)
    }

    /// Applies a note of the seat's venue, and lists it where the book doesn't take it; the seat gains the shares that
    /// cease to be open, and the note as one that was booked. B02, and the note may be applied again: only where the
    /// book takes it, or the list has no room for it.
    pub fn apply(&mut self, note: &Note, seat: &mut WorkerSeat<M>) -> Result<Applied, BookFault>
        ensures book { IfSome seat.old.venue (λ venue.
            Answers BookFault.OutOfMemory (without_room self.old) (give (without_room self.old) venue note.now) result
            (without_room self.new)) }
        ensures only { IsOkUnless result BookFault.OutOfMemory }
        ensures wanting { IfSome seat.old.venue (λ venue. OnErr result
            ((answer_to self.old.book venue note.now ≡ Applied.Moved) ⊎ (self.old.room ≤ length self.old.unbooked))) }
        ensures seat { seat.new.shares + resolved self.old.book ≡ seat.old.shares + resolved self.new.book }
        ensures gains { MatchResult result (λ applied. GainsBy note.now applied seat.old.shares seat.new.shares)
            (λ _. seat.new ≡ seat.old) }
        ensures parts { (seat.new.parts ≡ seat.old.parts) × (seat.new.venue ≡ seat.old.venue) }
        ensures booked { OnOk result (seat.new.booked ≡ seat.old.booked ++ note.now ∷ []) }
        ensures asked { seat.new.asked ≡ seat.old.asked }
    {
        let venue = seat.venue;
        let entries = self.book.history().len();
        let before = self.book.venue_resolved(venue);
        let applied = give_note(&mut self.book, &mut self.unbooked, venue, note)?;
        let gained = self.book.venue_resolved(venue) - before;
        seat.count(&mut self.total, gained);
        add_note(&mut self.bookings, seat, note, applied, entries);
        Ok(applied)
    }

    /// Withdraws a leg of the seat's venue; the seat gains its shares, and the leg as one that was asked for. B03, also
    /// where the leg is none of the venue's. It takes no memory.
    pub fn withdraw(&mut self, id: LegId, seat: &mut WorkerSeat<M>) -> Result<(), BookFault>
        ensures book { IfSome seat.old.venue (λ venue. (result, self.new.book) ≡ withdraw_of venue self.old.book id) }
        ensures of_venue { IsSome seat.old.venue }
        ensures unbooked { (self.new.unbooked ≡ self.old.unbooked) × (self.new.room ≡ self.old.room) }
        ensures seat { seat.new.shares + resolved self.old.book ≡ seat.old.shares + resolved self.new.book }
        ensures gains { MatchResult result (λ _. GainsLeg id seat.old.shares seat.new.shares)
            (λ fault. (fault ≡ BookFault.AlreadyMoved) × (seat.new.shares ≡ seat.old.shares)) }
        ensures parts { (seat.new.parts ≡ seat.old.parts) × (seat.new.venue ≡ seat.old.venue) }
        ensures booked { seat.new.booked ≡ seat.old.booked }
        ensures asked { seat.new.asked ≡ seat.old.asked ++ id ∷ [] }
    {
        let entries = self.book.history().len();
        let before = resolved_in(&self.book, self.venues);
        let result = withdraw_leg(&mut self.book, seat.venue, id);
        let gained = resolved_in(&self.book, self.venues) - before;
        seat.count(&mut self.total, gained);
        add_withdrawal(&mut self.bookings, seat, id, result.is_ok(), entries);
        result
    }

    /// Changes nothing, and tells that on a seat stands what the book took of its venue, and what it didn't take.
    pub fn compare(&mut self, seat: &mut WorkerSeat<M>)
        ensures kept { IsKept self.old.book seat.old }
        ensures unbooked { WereUnbooked self.old.unbooked seat.old }
        ensures same { (self.new ≡ self.old) × (seat.new ≡ seat.old) }
    {
        let Some(bookings) = self.bookings.get_mut(usize::from(seat.venue.number())) else {
            unreachable!()
        };
        seat.compare(&mut bookings.side);
    }

    /// Lends the book to a closure that reads it.
    pub fn read<T, F: FnOnce(&Book) -> T>(&self, f: F) -> T
        requires call { (book : _) → Replays book.now → F.pre f book }
        ensures value { FnOnceReturnsAt F.FnOnce f self.now.book result }
        ensures replays { Replays self.now.book }
    {
        f(&self.book)
    }

    /// Lends the book and the list of the notes that it didn't take to a closure that reads them.
    pub fn read_all<T, F: FnOnce(&Book, &[Unbooked]) -> T>(&self, f: F) -> T
        requires call { (book : _) (unbooked : _) → Replays book.now → IsListOf book.now unbooked.now
            → F.pre f book unbooked }
        ensures value { CallReads F.FnOnce f self.now.book self.now.unbooked result }
        ensures replays { Replays self.now.book }
        ensures list { IsListOf self.now.book self.now.unbooked }
    {
        f(&self.book, self.unbooked.as_slice())
    }

    /// Lends the book to a closure that only opens sweeps.
    pub fn lend<T, F: FnOnce(&mut Book) -> T>(&mut self, side: &mut SeatSide<Sweep>, f: F) -> T
        requires side { side.old.name ≡ M.sweeps }
        requires call { F.IsAlwaysCallable f }
        requires opens { (b : BookParts) (r : T) (c : BookParts) → FnOnceReturnsAtMut F.FnOnce f b r c → OnlyOpens b c }
        ensures call { FnOnceReturnsAtMut F.FnOnce f self.old.book result self.new.book }
        ensures unbooked { (self.new.unbooked ≡ self.old.unbooked) × (self.new.room ≡ self.old.room) }
        ensures agreed { IsSide M.sweeps self.old.book side.old.name side.old.items }
        ensures side { IsSide M.sweeps self.new.book side.new.name side.new.items }
    {
        let given = f(&mut self.book);
        keep_opened(&mut self.sweeps, side, &self.book);
        given
    }

    /// Lends the book, beside a value of the caller's, to a closure that only opens sweeps.
    pub fn lend_beside<D, T, F: FnOnce(&mut D, &mut Book) -> T>(
        &mut self,
        beside: &mut D,
        side: &mut SeatSide<Sweep>,
        f: F,
    ) -> T
        requires side { side.old.name ≡ M.sweeps }
        requires call { F.IsAlwaysCallable f }
        requires opens { (x : D) (b : BookParts) (r : T) (y : D) (c : BookParts) →
            CallGives F.FnOnce f x b r y c → OnlyOpens b c }
        ensures call { CallGives F.FnOnce f beside.old self.old.book result beside.new self.new.book }
        ensures unbooked { (self.new.unbooked ≡ self.old.unbooked) × (self.new.room ≡ self.old.room) }
        ensures agreed { IsSide M.sweeps self.old.book side.old.name side.old.items }
        ensures side { IsSide M.sweeps self.new.book side.new.name side.new.items }
    {
        let given = f(beside, &mut self.book);
        keep_opened(&mut self.sweeps, side, &self.book);
        given
    }

    /// Changes nothing, and tells that on the desk's side stand the sweeps that were opened here.
    pub fn compare_sweeps(&mut self, side: &mut SeatSide<Sweep>)
        requires { side.old.name ≡ M.sweeps }
        ensures agreed { IsSide M.sweeps self.old.book side.old.name side.old.items }
        ensures same { (self.new ≡ self.old) × (side.new.name ≡ side.old.name) × (side.new.items ≡ side.old.items) }
    {
        self.sweeps.compare(side);
    }
}

/// Withdraws a leg of this venue in a book. B03, also where the leg is of another, or none.
fn withdraw_leg(book: &mut Book, venue: VenueId, id: LegId) -> Result<(), BookFault>
    ensures { (result, book.new) ≡ withdraw_of venue book.old id }
{
    let Some(leg) = book.leg(id) else {
        return Err(BookFault::AlreadyMoved);
    };
    if leg.venue != venue {
        return Err(BookFault::AlreadyMoved);
    }
    book.withdraw(id)
}

/// The shares that so many venues of a book have resolved.
fn resolved_in(book: &Book, venues: u8) -> u64
    requires all { venues ≡ book.now.venues }
    requires few { venues ≤ 16 }
    requires replays { Replays book.now }
    ensures value { result ≡ resolved book.now }
    ensures few { result ≤ 1000000000000000000 }
{
    let mut shares = 0;
    for number in 0..venues {
        let Ok(venue) = VenueId::new(number) else {
            unreachable!()
        };
        shares += book.venue_resolved(venue);
    }
    shares
}
