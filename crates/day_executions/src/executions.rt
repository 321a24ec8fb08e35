//! Where the executions stand: in the book's history, or in the list of what it didn't take.

ghost use Rattle.std.specs.Prelude.{◌≡◌, ◌<◌, ◌≤◌, ◌+◌, ◌++◌, ◌∷◌, [], true, false, length, map, IfOk, IfSome, OnOk, OnErr, None};
ghost use Rattle.std.specs.List.{All};
ghost use Rattle.day_executions.specs.Executions.{AreUntaken, IsHeard, IsIndex, IsLeft, IsLent, IsNow, Looks, TellsOf, notes_behind, said_by, untaken_behind};
ghost use Rattle.day_executions.specs.Walk.{AllFound, IsEnd, is_next, place_of, unseen};
ghost use Rattle.exec_collector.specs.Unbooked.{IsListOf};

use crate::heard::{HeardNote, push_heard};
use crate::lent::{LentNotes, SaidNote};
use crate::place::{Place, found, untaken_at};
use crate::saying::with_words;
use exec_collector::{Accounts, Beside, Collector, Unbooked};
use report_words::WordList;
use share_ledger::{Book, BookEntry};
use std::alloc::{AllocError, Global};
use std::sync::Wait;

/// How many entries and notes are looked at while the book's lock is held.
const MOST_LOOKED: usize = 512;

/// Where the executions stand, as far as that was looked at.
#[derive(Drop)]
pub struct Executions {
    /// How many entries of the history were looked at.
    pub(crate) entries: usize,
    /// How many notes that the book didn't take were.
    pub(crate) items: usize,
    /// The places of the executions among both.
    pub(crate) places: Vec<Place>,
}

/// Whether the note at this place of a list, that the book didn't take, stands behind no more than so many entries.
fn is_next(unbooked: &[Unbooked], items: usize, entries: usize) -> bool
    ensures { result ≡ is_next unbooked.now items entries }
{
    match unbooked.get(items) {
        Some(item) => item.entries <= entries,
        None => false,
    }
}

impl Executions {
    /// Of a day that wasn't looked at.
    pub fn new(alloc: Global) -> Executions
        ensures { (result.entries ≡ 0) × (result.items ≡ 0) × (result.places.items ≡ []) }
    {
        Executions {
            entries: 0,
            items: 0,
            places: Vec::new(alloc),
        }
    }

    /// Looks at the next entry.
    fn look_at(&mut self, entry: &BookEntry) -> Result<(), AllocError>
        requires { self.old.entries < 18446744073709551615 }
        ensures ok { OnOk result ((self.new.entries ≡ self.old.entries + 1)
            × (self.new.places.items ≡ self.old.places.items ++ place_of self.old.entries entry.now)) }
        ensures err { OnErr result ((self.new.entries ≡ self.old.entries)
            × (self.new.places.items ≡ self.old.places.items)) }
        ensures items { self.new.items ≡ self.old.items }
    {
        if let BookEntry::Moved(_, _) = entry {
            self.places.push(Place::Booked(self.entries))?;
        }
        self.entries += 1;
        Ok(())
    }

    /// Looks at the next note that the book didn't take.
    fn look_beside(&mut self) -> Result<(), AllocError>
        requires { self.old.items < 18446744073709551615 }
        ensures ok { OnOk result ((self.new.items ≡ self.old.items + 1)
            × (self.new.places.items ≡ self.old.places.items ++ Place.Left self.old.items ∷ [])) }
        ensures err { OnErr result ((self.new.items ≡ self.old.items)
            × (self.new.places.items ≡ self.old.places.items)) }
        ensures entries { self.new.entries ≡ self.old.entries }
    {
        self.places.push(Place::Left(self.items))?;
        self.items += 1;
        Ok(())
    }

    /// Looks at what comes next, and says whether anything did.
    fn look_once(
        &mut self,
        history: &[BookEntry],
        unbooked: &[Unbooked],
    ) -> Result<bool, AllocError>
        ensures index { IsIndex self.old.entries self.old.items self.old.places.items history.now unbooked.now
            → IsIndex self.new.entries self.new.items self.new.places.items history.now unbooked.now }
        ensures end { IfOk result (λ more. more ≡ false
            → IsEnd self.new.entries self.new.items history.now unbooked.now) }
        ensures nearer { IfOk result (λ more. more ≡ true
            → unseen self.new.entries self.new.items history.now unbooked.now
            < unseen self.old.entries self.old.items history.now unbooked.now) }
    {
        if is_next(unbooked, self.items, self.entries) {
            self.look_beside()?;
            return Ok(true);
        }
        match history.get(self.entries) {
            Some(entry) => self.look_at(entry)?,
            None => return Ok(false),
        }
        Ok(true)
    }

    /// Looks at some hundred more, and says whether that isn't the end.
    fn look_on(&mut self, history: &[BookEntry], unbooked: &[Unbooked]) -> Result<bool, AllocError>
        ensures index { IsIndex self.old.entries self.old.items self.old.places.items history.now unbooked.now
            → IsIndex self.new.entries self.new.items self.new.places.items history.now unbooked.now }
        ensures end { IfOk result (λ more. more ≡ false
            → IsEnd self.new.entries self.new.items history.now unbooked.now) }
    {
        for looked in 0..MOST_LOOKED {
            if !self.look_once(history, unbooked)? {
                return Ok(false);
            }
        }
        Ok(true)
    }

    /// Looks at all that comes.
    fn look_to_end(
        &mut self,
        history: &[BookEntry],
        unbooked: &[Unbooked],
    ) -> Result<(), AllocError>
        ensures index { IsIndex self.old.entries self.old.items self.old.places.items history.now unbooked.now
            → IsIndex self.new.entries self.new.items self.new.places.items history.now unbooked.now }
        ensures end { OnOk result (IsEnd self.new.entries self.new.items history.now unbooked.now) }
    {
        while self.look_once(history, unbooked)? {}
        Ok(())
    }

    /// The executions behind a number, at most so many, of a day that was looked at to its end.
    fn behind(
        &self,
        alloc: Global,
        history: &[BookEntry],
        unbooked: &[Unbooked],
        after: u64,
        most: u64,
    ) -> Result<Vec<HeardNote>, AllocError>
        ensures told { IfOk result (λ notes. All (IsHeard history.now unbooked.now) notes.items) }
        ensures notes { AllFound self.now.places.items history.now unbooked.now
            → IfOk result (λ notes. notes.items ≡ notes_behind after most history.now unbooked.now) }
    {
        let places = self.places.as_slice();
        let count = most.min((places.len() as u64).saturating_sub(after));
        let mut notes = Vec::with_capacity(alloc, count as usize)?;
        for at in 0..count {
            let before = after + at;
            let place = places[before as usize];
            push_heard(&mut notes, before + 1, found(history, unbooked, place))?;
        }
        Ok(notes)
    }

    /// The executions behind a number that the book didn't take, of a day that was looked at to its end.
    fn untaken_behind(
        &self,
        alloc: Global,
        history: &[BookEntry],
        unbooked: &[Unbooked],
        after: u64,
    ) -> Result<Vec<HeardNote>, AllocError>
        ensures told { IfOk result (λ notes. All (IsLeft history.now unbooked.now) notes.items) }
        ensures notes { AllFound self.now.places.items history.now unbooked.now
            → IfOk result (λ notes. notes.items ≡ untaken_behind after history.now unbooked.now) }
    {
        let places = self.places.as_slice();
        let end = places.len() as u64;
        let begin = after.min(end);
        let mut notes = Vec::new(alloc);
        for before in begin..end {
            let place = places[before as usize];
            push_heard(&mut notes, before + 1, untaken_at(history, unbooked, place))?;
        }
        Ok(notes)
    }

    /// Looks at some hundred more. Where that is the end it lends the executions behind a number, at most so many, and
    /// else none.
    fn look(
        &mut self,
        alloc: Global,
        history: &[BookEntry],
        unbooked: &[Unbooked],
        words: &WordList,
        after: u64,
        most: u64,
    ) -> Result<Option<LentNotes>, AllocError>
        ensures index { IsIndex self.old.entries self.old.items self.old.places.items history.now unbooked.now
            → IsIndex self.new.entries self.new.items self.new.places.items history.now unbooked.now }
        ensures told { IfOk result (λ lent. IfSome lent (λ notes.
            All (TellsOf IsHeard history.now unbooked.now words.now) notes.notes.items)) }
        ensures lent { IsIndex self.old.entries self.old.items self.old.places.items history.now unbooked.now
            → IfOk result (λ lent. IfSome lent (IsLent after most history.now unbooked.now words.now)) }
    {
        if self.look_on(history, unbooked)? {
            return Ok(None);
        }
        let heard = self.behind(alloc, history, unbooked, after, most)?;
        let notes = with_words(alloc, words, heard)?;
        Ok(Some(LentNotes {
            notes,
            last: self.places.len() as u64,
        }))
    }

    /// Looks at some hundred more. Where that is the end it lends the executions behind a number that the book didn't
    /// take, and else none.
    fn look_for_untaken(
        &mut self,
        alloc: Global,
        history: &[BookEntry],
        unbooked: &[Unbooked],
        words: &WordList,
        after: u64,
    ) -> Result<Option<LentNotes>, AllocError>
        ensures index { IsIndex self.old.entries self.old.items self.old.places.items history.now unbooked.now
            → IsIndex self.new.entries self.new.items self.new.places.items history.now unbooked.now }
        ensures told { IfOk result (λ lent. IfSome lent (λ notes.
            All (TellsOf IsLeft history.now unbooked.now words.now) notes.notes.items)) }
        ensures lent { IsIndex self.old.entries self.old.items self.old.places.items history.now unbooked.now
            → IfOk result (λ lent. IfSome lent (AreUntaken after history.now unbooked.now words.now)) }
    {
        if self.look_on(history, unbooked)? {
            return Ok(None);
        }
        let heard = self.untaken_behind(alloc, history, unbooked, after)?;
        let notes = with_words(alloc, words, heard)?;
        Ok(Some(LentNotes {
            notes,
            last: self.places.len() as u64,
        }))
    }

    /// The executions behind a number, at most so many, as the book has them now, with their words. It may wait for the
    /// book's lock, and holds it for some hundred entries at a time. The only refusal is out of memory, after which it
    /// goes on where it was.
    pub fn now<M: Accounts>(
        &mut self,
        rt: &impl Wait,
        alloc: Global,
        collector: &Collector<M>,
        after: u64,
        most: u64,
    ) -> Result<LentNotes, AllocError>
        ensures { IfOk result (IsNow IsHeard (IsLent after most)) }
    {
        for _ in rt.forever() {
            // Room that is had here isn't asked for while the lock is held.
            self.places.reserve(MOST_LOOKED)?;
            let lent = collector.read_day(
                rt,
                |book: &Book, unbooked: &[Unbooked], beside: &Beside| -> Result<
                    Option<LentNotes>,
                    AllocError,
                >
                    ensures { Looks IsHeard (IsLent after most) book.now.entries unbooked.now beside.now.words result }
                { self.look(alloc, book.history(), unbooked, beside.words(), after, most) },
            )?;
            if let Some(lent) = lent {
                return Ok(lent);
            }
        }
        unreachable!()
    }

    /// The executions behind a number that the book didn't take until now, with the number of the last one of all. It
    /// waits and refuses as `now` does.
    pub fn untaken_now<M: Accounts>(
        &mut self,
        rt: &impl Wait,
        alloc: Global,
        collector: &Collector<M>,
        after: u64,
    ) -> Result<LentNotes, AllocError>
        ensures { IfOk result (IsNow IsLeft (AreUntaken after)) }
    {
        for _ in rt.forever() {
            self.places.reserve(MOST_LOOKED)?;
            let lent = collector.read_day(
                rt,
                |book: &Book, unbooked: &[Unbooked], beside: &Beside| -> Result<
                    Option<LentNotes>,
                    AllocError,
                >
                    ensures { Looks IsLeft (AreUntaken after) book.now.entries unbooked.now beside.now.words result }
                { self.look_for_untaken(alloc, book.history(), unbooked, beside.words(), after) },
            )?;
            if let Some(lent) = lent {
                return Ok(lent);
            }
        }
        unreachable!()
    }
}

/// All that exchanges said and a book didn't take, by the list that stands beside it, each with the words that were
/// kept under its number. The only refusal is out of memory.
pub fn all_untaken(
    alloc: Global,
    book: &Book,
    unbooked: &[Unbooked],
    words: &WordList,
) -> Result<Vec<SaidNote>, AllocError>
    requires { IsListOf book.now unbooked.now }
    ensures { IfOk result (λ notes.
        notes.items ≡ map (said_by words.now) (untaken_behind 0 book.now.entries unbooked.now)) }
{
    let history = book.history();
    let mut executions = Executions::new(alloc);
    executions.look_to_end(history, unbooked)?;
    let notes = executions.untaken_behind(alloc, history, unbooked, 0)?;
    with_words(alloc, words, notes)
}
