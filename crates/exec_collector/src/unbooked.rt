//! A note that the book didn't take.

ghost use Rattle.std.specs.Prelude.{◌≡◌, ◌⊎◌, ◌≤◌, ◌++◌, vec_capacity, vec_len, MatchResult, OnErr};
ghost use Rattle.leg.specs.Answering.{Answers};
ghost use Rattle.share_ledger.specs.Book.{answer_to};
ghost use Rattle.exec_collector.specs.Unbooked.{CountedParts, give};

use dialect::Note;
use leg::VenueId;
use share_ledger::{Applied, Book, BookFault};

/// A note that a venue's worker gave and that the book didn't take.
#[derive(Clone, Debug, PartialEq, Eq, Drop)]
pub struct Unbooked {
    /// The venue whose worker gave it.
    pub venue: VenueId,
    /// What it gave.
    pub note: Note,
    /// What the book answered.
    pub answer: Applied,
    /// How many entries the book's history had then: it stands behind these.
    pub entries: usize,
}

/// Gives a note of a venue to the book, and lists it where the book doesn't take it. B02, and the note may be given
/// again: only where the book takes it, or the list has no room for it.
pub(crate) fn give_note(
    book: &mut Book,
    unbooked: &mut Vec<Unbooked>,
    venue: VenueId,
    note: &Note,
) -> Result<Applied, BookFault>
    ensures answer { let before : CountedParts = record { book = book.old; unbooked = unbooked.old.items } in
        let after : CountedParts = record { book = book.new; unbooked = unbooked.new.items } in
        Answers BookFault.OutOfMemory before (give before venue note.now) result after }
    ensures wanting { OnErr result ((answer_to book.old venue note.now ≡ Applied.Moved)
        ⊎ (vec_capacity unbooked.old ≤ vec_len unbooked.old)) }
{
    let entries = book.history().len();
    let answer = book.apply(venue, note)?;
    if answer != Applied::Moved {
        unbooked.reserve(1)?;
        unbooked.push_reserved(Unbooked {
            venue,
            note: note.clone().unwrap(),
            answer,
            entries,
        });
    }
    Ok(answer)
}
