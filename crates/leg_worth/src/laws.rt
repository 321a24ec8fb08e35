//! What is kept of a book, whatever is asked of that: each law is the contract of a function that does nothing.

ghost use Rattle.std.specs.Prelude.{◌≡◌, ℕ, List};
ghost use Rattle.leg.specs.LegId.{LegIdParts};
ghost use Rattle.leg.specs.declared.sweep.Routed.{Routed};
ghost use Rattle.dialect.specs.declared.note.Note.{Note as ANote};
ghost use Rattle.share_ledger.specs.Book.{BookParts, answer_to, open_sweep, withdraw, written};
ghost use Rattle.share_ledger.specs.declared.book_entry.BookEntry.TheVariants.{Moved};
ghost use Rattle.leg_worth.specs.Kept.{AreKept, AreWorths, IsReplayed, worth_at, fill_at, worth_after, fill_after, note_change};
ghost use Rattle.leg_worth.specs.declared.worths.Worths.{Worths as SomeWorths};

use share_ledger::Applied;

/// A note that moves, and the change that it makes, leave what is kept of the book.
pub fn what_moves_is_kept()
    ensures { (book : BookParts) (worths : SomeWorths) (venue : ℕ) (note : ANote) → IsReplayed book
        → AreWorths book worths → answer_to book venue note ≡ Applied.Moved
        → (let change = note_change book (worth_at worths) (fill_at worths) venue note in
        AreKept (written (Moved venue note) book) (worth_after change (worth_at worths))
        (fill_after change (fill_at worths))) }
{}

/// Neither a sweep that is opened nor a withdrawal changes what is kept.
pub fn openings_and_withdrawals_keep_it()
    ensures opened { (book : BookParts) (worths : SomeWorths) (number : ℕ) (legs : List Routed)
        → AreWorths book worths → AreWorths (open_sweep book number legs).1 worths }
    ensures withdrawn { (book : BookParts) (worths : SomeWorths) (id : LegIdParts)
        → AreWorths book worths → AreWorths (withdraw book id).1 worths }
{}
