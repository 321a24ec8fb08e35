//! The book behind a lock.

ghost use Rattle.std.specs.Prelude.{◌≡◌, ◌≤◌, ◌++◌, ◌∷◌, [], IfOk, IsOkUnless, MatchResult, OnOk};
ghost use Rattle.std.specs.Fn.{FnOnceReturnsAt, FnOnceReturnsAtMut};
ghost use Rattle.kept_link.specs.Telling.{IsAllKept};
ghost use Rattle.share_ledger.specs.Book.{BookParts, totals};
ghost use Rattle.exec_collector.specs.Beside.{IsBeside};
ghost use Rattle.exec_collector.specs.Calls.{CallGives, CallReads, CallReadsAll};
ghost use Rattle.exec_collector.specs.Opened.{IsSide};
ghost use Rattle.exec_collector.specs.Resolved.{Replays, OnlyOpens, GainsBy, GainsLeg, resolved};
ghost use Rattle.exec_collector.specs.Seats.{worker_seats};
ghost use Rattle.exec_collector.specs.Unbooked.{KeptCounted, IsListOf, without_room};
ghost use Rattle.exec_collector.specs.declared.beside.Beside.{Beside as KeptBeside};

use crate::venue_bookings::VenueBookings;
use crate::{Accounts, Beside, BlankBook, CountedBook, DayBook, Unbooked, WorkerSeat};
use agreed_list::SeatSide;
use dialect::Note;
use kept_link::Telling;
use leg::{LegId, Sweep, Totals};
use report_words::ReportWords;
use share_ledger::{Applied, Book, BookFault};
use std::alloc::Global;
use std::collections::VecDeque;
use std::sync::{Mutex, Wait};

/// The book behind a lock, which all workers share. Each call may wait for the lock.
#[derive(Drop)]
pub struct Collector<M: Accounts> {
    day: Mutex<DayBook<M>>,
}

impl<M: Accounts> Collector<M> {
    /// A new book of 1 to 16 venues behind a lock, and a seat for the worker of each venue, in their order. B02.
    pub fn new(
        alloc: Global,
        venues: u8,
        blank: BlankBook,
    ) -> Result<(Collector<M>, Vec<WorkerSeat<M>>, SeatSide<Sweep>), BookFault>
        requires low { 1 ≤ venues }
        requires high { venues ≤ 16 }
        requires name { blank.name ≡ M.name }
        requires parts { (blank.parts ≡ M.parts) × (M.parts ≡ venues) }
        requires lists { (blank.lists ≡ M.lists) × (blank.sweeps ≡ M.sweeps) }
        ensures seats { IfOk result (λ made. made.1.items ≡ worker_seats venues) }
        ensures desk { IfOk result (λ made. (made.2.name ≡ M.sweeps) × (made.2.items ≡ [])) }
        ensures only { IsOkUnless result BookFault.OutOfMemory }
    {
        let count = usize::from(venues);
        let book = Book::new(alloc, venues)?;
        let mut bookings = Vec::with_capacity(alloc, count)?;
        let mut seats = Vec::with_capacity(alloc, count)?;
        let BlankBook {
            total,
            lists,
            sweeps,
            desk,
        } = blank;
        let (total, mut whole) = total.open::<M>();
        let mut lists = VecDeque::from(lists);
        while let Some(list) = lists.pop_front() {
            bookings.push_reserved(VenueBookings {
                venue: list.venue,
                side: list.book,
            });
            seats.push_reserved(WorkerSeat::new(list.venue, whole.split_off(1, 0), list.seat));
        }
        let counted = CountedBook {
            venues,
            book,
            unbooked: Vec::new(alloc),
            total,
            bookings,
            sweeps,
        };
        let collector = Collector {
            day: Mutex::new(DayBook::new(alloc, counted)),
        };
        Ok((collector, seats, desk))
    }

    /// Applies a note of the seat's venue, and keeps its words; the seat gains the shares that cease to be open, and
    /// the note as one that was booked. No other call books one. B02, and the note may be applied again.
    pub fn apply(
        &self,
        rt: &impl Wait,
        note: &Note,
        words: &ReportWords,
        seat: &mut WorkerSeat<M>,
    ) -> Result<Applied, BookFault>
        ensures gains { MatchResult result (λ applied. GainsBy note.now applied seat.old.shares seat.new.shares)
            (λ fault. (fault ≡ BookFault.OutOfMemory) × (seat.new ≡ seat.old)) }
        ensures parts { (seat.new.parts ≡ seat.old.parts) × (seat.new.venue ≡ seat.old.venue) }
        ensures booked { OnOk result (seat.new.booked ≡ seat.old.booked ++ note.now ∷ []) }
        ensures asked { seat.new.asked ≡ seat.old.asked }
    {
        self.day.lock(rt).apply(note, words, seat)
    }

    /// Withdraws a leg of the seat's venue; the seat gains its shares, and the leg as one that was asked for, whatever
    /// the book answers. No other call asks for one. Whoever calls it shows that all that this journal was told is
    /// kept: that a leg is withdrawn is never lost once the book has it so. B03, also where the leg is none of the
    /// venue's. It takes no memory.
    pub fn withdraw<J: Telling>(
        &self,
        rt: &impl Wait,
        id: LegId,
        seat: &mut WorkerSeat<M>,
        _journal: &J,
    ) -> Result<(), BookFault>
        requires kept { IsAllKept (J.told _journal.now) }
        ensures gains { MatchResult result (λ _. GainsLeg id seat.old.shares seat.new.shares)
            (λ fault. (fault ≡ BookFault.AlreadyMoved) × (seat.new.shares ≡ seat.old.shares)) }
        ensures parts { (seat.new.parts ≡ seat.old.parts) × (seat.new.venue ≡ seat.old.venue) }
        ensures booked { seat.new.booked ≡ seat.old.booked }
        ensures asked { seat.new.asked ≡ seat.old.asked ++ id ∷ [] }
    {
        self.day.lock(rt).withdraw(id, seat)
    }

    /// The totals of a sweep, if it was opened, of a book that replays from its own history. It takes no memory.
    pub fn totals(&self, rt: &impl Wait, number: u64) -> Option<Totals>
        ensures { (book : BookParts) × Replays book × (result ≡ totals book number) }
    {
        self.day.lock(rt).counted().book().totals(number)
    }

    /// The shares that the venues have resolved, at most 10^18, of a book that replays from its own history.
    pub fn resolved(&self, rt: &impl Wait) -> u64
        ensures { (book : BookParts) × Replays book × (result ≡ resolved book) }
    {
        self.day.lock(rt).counted().resolved()
    }

    /// Lends the book, which replays from its own history, to a closure that reads it.
    pub fn read<T, F: FnOnce(&Book) -> T>(&self, rt: &impl Wait, f: F) -> T
        requires call { (book : _) → Replays book.now → F.pre f book }
        ensures { (book : BookParts) × Replays book × FnOnceReturnsAt F.FnOnce f book result }
    {
        self.day.lock(rt).counted().read(f)
    }

    /// Lends the book, which replays from its own history, and the list of the notes that it didn't take to a closure
    /// that reads them, as both are at one moment.
    pub fn read_all<T, F: FnOnce(&Book, &[Unbooked]) -> T>(&self, rt: &impl Wait, f: F) -> T
        requires call { (book : _) (unbooked : _) → Replays book.now → IsListOf book.now unbooked.now
            → F.pre f book unbooked }
        ensures { (counted : KeptCounted) × Replays counted.book × IsListOf counted.book counted.unbooked
            × CallReads F.FnOnce f counted.book counted.unbooked result }
    {
        self.day.lock(rt).counted().read_all(f)
    }

    /// Lends the book, which replays from its own history, the list of the notes that it didn't take, and what is kept
    /// beside them to a closure that reads them, as all are at one moment.
    pub fn read_day<T, F: FnOnce(&Book, &[Unbooked], &Beside) -> T>(
        &self,
        rt: &impl Wait,
        f: F,
    ) -> T
        requires call { (book : _) (unbooked : _) (beside : _) → Replays book.now → IsListOf book.now unbooked.now
            → F.pre f book unbooked beside }
        ensures { (counted : KeptCounted) × (beside : KeptBeside) × Replays counted.book
            × IsListOf counted.book counted.unbooked × IsBeside (without_room counted) beside
            × CallReadsAll F.FnOnce f counted.book counted.unbooked beside result }
    {
        self.day.lock(rt).read_all(f)
    }

    /// Lends the book to a closure that only opens sweeps.
    pub fn lend<T, F: FnOnce(&mut Book) -> T>(
        &self,
        rt: &impl Wait,
        side: &mut SeatSide<Sweep>,
        f: F,
    ) -> T
        requires side { side.old.name ≡ M.sweeps }
        requires call { F.IsAlwaysCallable f }
        requires opens { (b : BookParts) (r : T) (c : BookParts) → FnOnceReturnsAtMut F.FnOnce f b r c → OnlyOpens b c }
        ensures { (b : BookParts) × (c : BookParts) × FnOnceReturnsAtMut F.FnOnce f b result c
            × IsSide M.sweeps b side.old.name side.old.items × IsSide M.sweeps c side.new.name side.new.items }
    {
        self.day.lock(rt).lend(side, f)
    }

    /// Lends the book, beside a value of the caller's, to a closure that only opens sweeps.
    pub fn lend_beside<D, T, F: FnOnce(&mut D, &mut Book) -> T>(
        &self,
        rt: &impl Wait,
        beside: &mut D,
        side: &mut SeatSide<Sweep>,
        f: F,
    ) -> T
        requires side { side.old.name ≡ M.sweeps }
        requires call { F.IsAlwaysCallable f }
        requires opens { (x : D) (b : BookParts) (r : T) (y : D) (c : BookParts) →
            CallGives F.FnOnce f x b r y c → OnlyOpens b c }
        ensures { (b : BookParts) × (c : BookParts) × CallGives F.FnOnce f beside.old b result beside.new c
            × IsSide M.sweeps b side.old.name side.old.items × IsSide M.sweeps c side.new.name side.new.items }
    {
        self.day.lock(rt).lend_beside(beside, side, f)
    }

    /// What lies under the lock, once no thread shares it any more.
    pub fn into_day(self) -> DayBook<M> {
        self.day.into_inner()
    }

    /// The book and its count, once no thread shares the lock any more.
    pub fn into_counted(self) -> CountedBook<M> {
        self.into_day().into_counted()
    }
}
