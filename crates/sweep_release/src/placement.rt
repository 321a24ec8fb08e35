//! Places a sweep at desk and book.

ghost use Rattle.std.specs.Prelude.{◌≡◌, ◌+◌, ◌≤◌, length, IsOk};
ghost use Rattle.sweep_release.specs.Place.{kept, place_kept, book_refusal, PlaceAnswers};

use crate::{Desk, Receipt, ReleaseFault};
use leg::Sweep;
use share_ledger::{Book, BookFault};

impl From<BookFault> for ReleaseFault {
    ghost from_gives = { λ fault refusal. refusal ≡ book_refusal fault };

    fn from(fault: BookFault) -> ReleaseFault {
        match fault {
            BookFault::OutOfMemory => ReleaseFault::OutOfMemory,
            BookFault::NotNext => ReleaseFault::WrongBook,
            BookFault::Unfit => ReleaseFault::WrongBook,
            BookFault::AlreadyMoved => ReleaseFault::WrongBook,
        }
    }
}

/// Releases a sweep at the desk and opens it in the book, under one number, or does neither. The refusals of a release
/// come first, its R07 among them; then R08, where the book would answer B01 or B04; then R07 for the book. Where the
/// desk has the room, as after `ready`, R07 comes from the book alone, for a sweep that would be placed. A refused
/// sweep is dropped, and desk and book are as they were.
pub fn place(desk: &mut Desk, book: &mut Book, sweep: Sweep) -> Result<Receipt, ReleaseFault>
    ensures answer { PlaceAnswers (kept desk.old book.old) (place_kept (kept desk.old book.old) sweep.legs) result
        (kept desk.new book.new) }
    ensures there { 1 + length sweep.legs ≤ desk.old.room → result ≡ Err ReleaseFault.OutOfMemory →
        IsOk (place_kept (kept desk.old book.old) sweep.legs).0 }
{
    desk.ready(&sweep)?;
    book.open_sweep(desk.next_number(), &sweep)?;
    desk.release(sweep)
}
