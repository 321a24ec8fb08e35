//! What is kept beside the counted book.

ghost use Rattle.std.specs.Prelude.{◌≡◌, ◌+◌, ◌-◌, ◌<◌, ◌++◌, ◌∷◌, [], ℕ, List, length, min, take, IfOk, OnErr, OnOk};
ghost use Rattle.std.specs.HashMap as table;
ghost use Rattle.leg.specs.LegId.{LegIdParts};
ghost use Rattle.leg_worth.specs.Kept.{AreWorths, HasRoom, worth_at, fill_at, worth_after, fill_after, note_change};
ghost use Rattle.leg_worth.specs.Worth.{capped, worth_below};
ghost use Rattle.share_ledger.specs.Book.{new_book};
ghost use Rattle.exec_collector.specs.Day.{AreDisputed, added, disputed_at, disputed_below, disputed_by};
ghost use Rattle.exec_collector.specs.Beside.{SameBeside, change_if};

use crate::disputed::Disputed;
use dialect::Note;
use leg::{LegId, VenueId};
use leg_worth::{Worth, WorthChange, Worths};
use report_words::{ReportWords, WordList};
use share_ledger::{Applied, Book};
use std::alloc::{AllocError, Global};

/// What is kept beside the counted book: the words of each note, what was paid in each leg, and the shares of each leg
/// that are disputed.
#[derive(Drop)]
pub struct Beside {
    pub(crate) words: WordList,
    pub(crate) worths: Worths,
    pub(crate) disputed: Disputed,
}

impl Beside {
    /// Of a book in which nothing is written.
    pub(crate) fn new(alloc: Global) -> Beside
        ensures words { result.words ≡ [] }
        ensures worths { (venues : ℕ) → AreWorths (new_book venues) result.worths }
        ensures disputed { AreDisputed [] result.disputed }
    {
        Beside {
            words: WordList::new(alloc),
            worths: Worths::new(alloc),
            disputed: Disputed::new(alloc),
        }
    }

    /// The words of each note, in the order in which the notes were given.
    pub fn words(&self) -> &WordList
        ensures { result.now ≡ self.now.words }
    {
        &self.words
    }

    /// What was paid in a leg.
    pub fn worth(&self, id: LegId) -> Worth
        ensures { result ≡ worth_at self.now.worths id }
    {
        self.worths.leg(id)
    }

    /// What was paid in the legs of a sweep, up to the greatest numbers of the types.
    pub fn sweep_worth(&self, number: u64) -> Worth
        ensures { result ≡ capped (worth_below (worth_at self.now.worths) number 32) }
    {
        self.worths.sweep(number)
    }

    /// The shares of a leg that its exchange says were traded and that the book didn't take, up to the greatest number
    /// of the type.
    pub fn disputed(&self, id: LegId) -> u64
        ensures { result ≡ disputed_at self.now.disputed id }
    {
        self.disputed.shares(id)
    }

    /// Those of the legs of a sweep, up to the greatest number of the type.
    pub fn sweep_disputed(&self, number: u64) -> u64
        ensures { result ≡ disputed_below (disputed_at self.now.disputed) number 32 }
    {
        self.disputed.sweep(number)
    }

    /// Keeps the words of a note of a venue, before the book is asked, and says what the note changes, should the book
    /// take it. It makes room for that. The only refusal is out of memory, and nothing is kept.
    pub(crate) fn prepare(
        &mut self,
        book: &Book,
        venue: VenueId,
        note: &Note,
        words: &ReportWords,
    ) -> Result<Option<WorthChange>, AllocError>
        requires { AreWorths book.now self.old.worths }
        ensures same { SameBeside self.old self.new }
        ensures words { OnOk result (self.new.words ≡ self.old.words ++ words.now ∷ []) }
        ensures err { OnErr result (self.new.words ≡ self.old.words) }
        ensures room { OnOk result (HasRoom self.new.worths × (0 < table.spare self.new.disputed.legs)) }
        ensures change { IfOk result (λ change. change
            ≡ note_change book.now (worth_at self.new.worths) (fill_at self.new.worths) venue note.now) }
    {
        let change = self.worths.change_by(book, venue, note)?;
        self.disputed.reserve()?;
        self.words.push(words)?;
        Ok(change)
    }

    /// The book answered so: the change is made where it took the note, and its shares are disputed where it is a trade
    /// that the book didn't take. There is room.
    pub(crate) fn settle(&mut self, note: &Note, answer: Applied, change: Option<WorthChange>)
        requires worths { HasRoom self.old.worths }
        requires disputed { 0 < table.spare self.old.disputed.legs }
        ensures words { self.new.words ≡ self.old.words }
        ensures legs { (id : LegIdParts) → worth_at self.new.worths id
            ≡ worth_after (change_if answer change) (worth_at self.old.worths) id }
        ensures trades { (id : LegIdParts) (exec : List ℕ) → fill_at self.new.worths id exec
            ≡ fill_after (change_if answer change) (fill_at self.old.worths) id exec }
        ensures disputed { (id : LegIdParts) → disputed_at self.new.disputed id
            ≡ added (disputed_at self.old.disputed id) (disputed_by id note.now answer) }
    {
        if answer == Applied::Moved {
            self.worths.settle(change);
        }
        self.disputed.hear(note, answer);
    }

    /// Takes back the words that were kept last: the book wanted memory.
    pub(crate) fn take_back(&mut self)
        ensures words { self.new.words ≡ take (length self.old.words - 1) self.old.words }
        ensures same { SameBeside self.old self.new }
    {
        let count = self.words.len();
        self.words.truncate(count.saturating_sub(1));
    }
}
