//! The book is told what a session received.

ghost use Rattle.std.specs.Prelude.{◌≡◌, IfOk, OnOk};
ghost use Rattle.std.specs.Option.{option_map};
ghost use Rattle.schedule.specs.Happening.{booked, withdrawn_in};
ghost use Rattle.share_ledger.specs.Book.{answer_to};

use dialect::Note;
use leg::{LegId, VenueId};
use session_core::LegIds;
use share_ledger::{Applied, Book};
use std::alloc::AllocError;

/// Tells a book what the session of a venue received: the legs that are now withdrawn, and then the note, if there is
/// one. It gives the book's answer to the note. The only refusal is out of memory.
pub fn tell(
    book: &mut Book,
    venue: VenueId,
    withdrawn: LegIds,
    note: &Option<Note>,
) -> Result<Option<Applied>, AllocError>
    ensures book { OnOk result (book.new ≡ booked venue note.now (withdrawn_in book.old withdrawn)) }
    ensures answer { IfOk result (λ answer. answer
        ≡ option_map (answer_to (withdrawn_in book.old withdrawn) venue) note.now) }
{
    withdraw_all(book, withdrawn.into_vec());
    match note {
        Some(note) => match book.apply(venue, note) {
            Ok(answer) => Ok(Some(answer)),
            Err(_) => Err(AllocError),
        },
        None => Ok(None),
    }
}

/// Withdraws legs, in order.
fn withdraw_all(book: &mut Book, ids: Vec<LegId>)
    ensures { book.new ≡ withdrawn_in book.old ids.items }
{
    for id in ids {
        // A leg that the book has as moved stays as it is.
        let _ = book.withdraw(id);
    }
}
