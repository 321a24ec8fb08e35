//! The counted book, and beside it what exchanges said in words and what was paid.

ghost use Rattle.std.specs.Prelude.{◌≡◌, ◌++◌, ◌∷◌, [], length, min, IfSome, IsOkUnless, MatchResult, OnOk};
ghost use Rattle.std.specs.Fn.{FnOnceReturnsAtMut};
ghost use Rattle.leg.specs.Answering.{Answers};
ghost use Rattle.leg_worth.specs.Worth.{capped, leg_worth, sweep_worth};
ghost use Rattle.share_ledger.specs.Book.{BookParts, new_book};
ghost use Rattle.exec_collector.specs.Booked.{withdraw_of};
ghost use Rattle.exec_collector.specs.Beside.{IsBeside};
ghost use Rattle.exec_collector.specs.Calls.{CallGives, CallReadsAll};
ghost use Rattle.exec_collector.specs.Day.{note_count, disputed, disputed_below};
ghost use Rattle.exec_collector.specs.Opened.{IsSide};
ghost use Rattle.exec_collector.specs.Resolved.{Replays, OnlyOpens, GainsBy, GainsLeg};
ghost use Rattle.exec_collector.specs.Unbooked.{IsListOf, give, without_room};
ghost use Rattle.exec_collector.specs.declared.beside.Beside.{Beside as KeptBeside};

use crate::beside::Beside;
use crate::{Accounts, CountedBook, Unbooked, WorkerSeat};
use agreed_list::SeatSide;
use dialect::Note;
use leg::{LegId, Sweep};
use leg_worth::Worth;
use report_words::{ReportWords, WordList};
use share_ledger::{Applied, Book, BookFault};
use std::alloc::Global;
use std::marker::Model;

/// What lies under the collector's lock. Contracts see what is counted, and the words of each note, in the order in
/// which the notes were given. There are words for each note, and what was paid and what is disputed is kept of each
/// leg.
#[derive(Drop)]
pub struct DayBook<M: Accounts> {
    pub(crate) counted: CountedBook<M>,
    pub(crate) beside: Beside,
}

impl<M: Accounts> Model for DayBook<M> {
    ghost use Rattle.exec_collector.specs.Beside.{IsBeside};
    ghost use Rattle.exec_collector.specs.Day.{DayParts};
    ghost use Rattle.exec_collector.specs.Unbooked.{without_room};

    ghost Value = { DayParts };

    ghost view = { λ day. record { counted = day.counted; words = day.beside.words } };

    ghost invariant = { λ day. IsBeside (without_room day.counted) day.beside };
}

impl<M: Accounts> DayBook<M> {
    /// Of a book in which nothing is written.
    pub(crate) fn new(alloc: Global, counted: CountedBook<M>) -> DayBook<M>
        requires book { counted.book ≡ new_book counted.book.venues }
        requires unbooked { counted.unbooked ≡ [] }
        ensures { result ≡ record { counted = counted; words = [] } }
    {
        DayBook {
            counted,
            beside: Beside::new(alloc),
        }
    }

    /// The counted book: its own book, and the list of the notes that it didn't take.
    pub fn counted(&self) -> &CountedBook<M>
        ensures value { result.now ≡ self.now.counted }
    {
        &self.counted
    }

    /// The words of each note, in the order in which the notes were given: one for each.
    pub fn words(&self) -> &WordList
        ensures value { result.now ≡ self.now.words }
        ensures one_each { length self.now.words ≡ note_count (without_room self.now.counted) }
    {
        &self.beside.words
    }

    /// What was paid in a leg.
    pub fn worth(&self, id: LegId) -> Worth
        ensures { result ≡ leg_worth self.now.counted.book id }
    {
        self.beside.worths.leg(id)
    }

    /// What was paid in the legs of a sweep, up to the greatest numbers of the types.
    pub fn sweep_worth(&self, number: u64) -> Worth
        ensures { result ≡ capped (sweep_worth self.now.counted.book number) }
    {
        self.beside.worths.sweep(number)
    }

    /// The shares of a leg that its exchange says were traded and that the book didn't take, up to the greatest number
    /// of the type.
    pub fn disputed(&self, id: LegId) -> u64
        ensures { result ≡ min (disputed id self.now.counted.unbooked) 18446744073709551615 }
    {
        self.beside.disputed.shares(id)
    }

    /// Those of the legs of a sweep, up to the greatest number of the type.
    pub fn sweep_disputed(&self, number: u64) -> u64
        ensures { result ≡ disputed_below (λ id. min (disputed id self.now.counted.unbooked) 18446744073709551615)
            number 32 }
    {
        self.beside.disputed.sweep(number)
    }

    /// Lends the book, the list of the notes that it didn't take, and what is kept beside them to a closure that reads
    /// them.
    pub fn read_all<T, F: FnOnce(&Book, &[Unbooked], &Beside) -> T>(&self, f: F) -> T
        requires call { (book : _) (unbooked : _) (beside : _) → Replays book.now → IsListOf book.now unbooked.now
            → F.pre f book unbooked beside }
        ensures { (beside : KeptBeside) × IsBeside (without_room self.now.counted) beside
            × (beside.words ≡ self.now.words) × Replays self.now.counted.book
            × IsListOf self.now.counted.book self.now.counted.unbooked
            × CallReadsAll F.FnOnce f self.now.counted.book self.now.counted.unbooked beside result }
    {
        f(self.counted.book(), self.counted.unbooked(), &self.beside)
    }

    /// Applies a note of the seat's venue as `CountedBook::apply` does, and keeps its words. B02, and the note may be
    /// applied again.
    pub fn apply(
        &mut self,
        note: &Note,
        words: &ReportWords,
        seat: &mut WorkerSeat<M>,
    ) -> Result<Applied, BookFault>
        ensures book { IfSome seat.old.venue (λ venue. Answers BookFault.OutOfMemory (without_room self.old.counted)
            (give (without_room self.old.counted) venue note.now) result (without_room self.new.counted)) }
        ensures words { MatchResult result (λ _. self.new.words ≡ self.old.words ++ words.now ∷ [])
            (λ _. self.new.words ≡ self.old.words) }
        ensures only { IsOkUnless result BookFault.OutOfMemory }
        ensures gains { MatchResult result (λ applied. GainsBy note.now applied seat.old.shares seat.new.shares)
            (λ _. seat.new ≡ seat.old) }
        ensures parts { (seat.new.parts ≡ seat.old.parts) × (seat.new.venue ≡ seat.old.venue) }
        ensures booked { OnOk result (seat.new.booked ≡ seat.old.booked ++ note.now ∷ []) }
        ensures asked { seat.new.asked ≡ seat.old.asked }
    {
        let change = self
            .beside
            .prepare(self.counted.book(), seat.venue(), note, words)?;
        match self.counted.apply(note, seat) {
            Ok(applied) => {
                self.beside.settle(note, applied, change);
                Ok(applied)
            }
            Err(fault) => {
                self.beside.take_back();
                Err(fault)
            }
        }
    }

    /// Withdraws a leg of the seat's venue, as `CountedBook::withdraw` does.
    pub fn withdraw(&mut self, id: LegId, seat: &mut WorkerSeat<M>) -> Result<(), BookFault>
        ensures book { IfSome seat.old.venue (λ venue.
            (result, self.new.counted.book) ≡ withdraw_of venue self.old.counted.book id) }
        ensures unbooked { self.new.counted.unbooked ≡ self.old.counted.unbooked }
        ensures words { self.new.words ≡ self.old.words }
        ensures gains { MatchResult result (λ _. GainsLeg id seat.old.shares seat.new.shares)
            (λ fault. (fault ≡ BookFault.AlreadyMoved) × (seat.new.shares ≡ seat.old.shares)) }
        ensures parts { (seat.new.parts ≡ seat.old.parts) × (seat.new.venue ≡ seat.old.venue) }
        ensures booked { seat.new.booked ≡ seat.old.booked }
        ensures asked { seat.new.asked ≡ seat.old.asked ++ id ∷ [] }
    {
        self.counted.withdraw(id, seat)
    }

    /// Lends the book to a closure that only opens sweeps.
    pub fn lend<T, F: FnOnce(&mut Book) -> T>(&mut self, side: &mut SeatSide<Sweep>, f: F) -> T
        requires side { side.old.name ≡ M.sweeps }
        requires call { F.IsAlwaysCallable f }
        requires opens { (b : BookParts) (r : T) (c : BookParts) → FnOnceReturnsAtMut F.FnOnce f b r c → OnlyOpens b c }
        ensures call { FnOnceReturnsAtMut F.FnOnce f self.old.counted.book result self.new.counted.book }
        ensures unbooked { self.new.counted.unbooked ≡ self.old.counted.unbooked }
        ensures words { self.new.words ≡ self.old.words }
        ensures agreed { IsSide M.sweeps self.old.counted.book side.old.name side.old.items }
        ensures side { IsSide M.sweeps self.new.counted.book side.new.name side.new.items }
    {
        self.counted.lend(side, f)
    }

    /// Lends the book, beside a value of the caller's, to a closure that only opens sweeps.
    pub fn lend_beside<D, T, F: FnOnce(&mut D, &mut Book) -> T>(
        &mut self,
        beside: &mut D,
        side: &mut SeatSide<Sweep>,
        f: F,
    ) -> T
        requires side { side.old.name ≡ M.sweeps }
        requires call { F.IsAlwaysCallable f }
        requires opens { (x : D) (b : BookParts) (r : T) (y : D) (c : BookParts) →
            CallGives F.FnOnce f x b r y c → OnlyOpens b c }
        ensures call { CallGives F.FnOnce f beside.old self.old.counted.book result beside.new self.new.counted.book }
        ensures unbooked { self.new.counted.unbooked ≡ self.old.counted.unbooked }
        ensures words { self.new.words ≡ self.old.words }
        ensures agreed { IsSide M.sweeps self.old.counted.book side.old.name side.old.items }
        ensures side { IsSide M.sweeps self.new.counted.book side.new.name side.new.items }
    {
        self.counted.lend_beside(beside, side, f)
    }

    /// The counted book alone.
    pub fn into_counted(self) -> CountedBook<M>
        ensures { result ≡ self.counted }
    {
        let DayBook { counted, beside: _ } = self;
        counted
    }
}
