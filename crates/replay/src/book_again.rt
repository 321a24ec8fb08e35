//! The book is made again.

ghost use Rattle.std.specs.Prelude.{◌≡◌, ◌<◌, ◌≤◌, length, map, IfOk, OnOk};
ghost use Rattle.schedule.specs.World.{withdrawn_ids};
ghost use Rattle.share_ledger.specs.declared.book_entry.BookEntry.TheVariants.{Opened, Withdrawn, Moved};
ghost use Rattle.share_ledger.specs.Book.{new_book, replay};
ghost use Rattle.sweep_release.specs.Kept.{released_sweeps};
ghost use Rattle.world_restart.specs.Start.{book_entries};

use crate::desk_again::venue_number;
use crate::world::World;
use dialect::{Dialect, Note};
use leg::{LegState, VenueId};
use share_ledger::{Book, BookFault};
use std::alloc::{AllocError, Global};
use sweep_release::DeskEntry;

/// The book made again from a world: its sweeps are opened, and then of each venue the notes are booked and the
/// withdrawn legs withdrawn. The only refusal is out of memory.
pub(crate) fn book_again<D: Dialect + Drop>(
    alloc: Global,
    world: &World<D>,
) -> Result<Book, AllocError>
    requires low { 1 ≤ length world.now.venues }
    ensures { IfOk result (λ book. book ≡ replay (new_book (length world.now.venues)) (book_entries world.now)) }
{
    let count = world.venues();
    let Ok(mut book) = Book::new(alloc, count as u8) else {
        return Err(AllocError);
    };
    open_all(&mut book, world.desk().history())?;
    for number in 0..count {
        let venue = venue_number(number);
        apply_all(&mut book, venue, world.given(venue))?;
        withdraw_all(&mut book, world, venue);
    }
    Ok(book)
}

/// The sweeps that a desk's history has are opened.
fn open_all(book: &mut Book, history: &[DeskEntry]) -> Result<(), AllocError>
    ensures { OnOk result (book.new
        ≡ replay book.old (map (λ legs. Opened (record { legs = legs })) (released_sweeps history.now))) }
{
    for entry in history {
        if let DeskEntry::Released(sweep) = entry {
            match book.open_sweep(book.next_sweep(), sweep) {
                Err(BookFault::OutOfMemory) => return Err(AllocError),
                // A sweep that doesn't fit stays unopened, as the first time.
                _ => {}
            }
        }
    }
    Ok(())
}

/// Notes of a venue are booked, in order.
fn apply_all(book: &mut Book, venue: VenueId, notes: &[Note]) -> Result<(), AllocError>
    ensures { OnOk result (book.new ≡ replay book.old (map (Moved venue) notes.now)) }
{
    for note in notes {
        if book.apply(venue, note).is_err() {
            return Err(AllocError);
        }
    }
    Ok(())
}

/// The withdrawn legs of a venue are withdrawn, by ordinal.
fn withdraw_all<D: Dialect + Drop>(book: &mut Book, world: &World<D>, venue: VenueId)
    ensures { book.new ≡ replay book.old (map Withdrawn (withdrawn_ids world.now venue)) }
{
    for (at, leg) in world.released(venue).iter().enumerate() {
        match world.state(venue, at as u64 + 1) {
            Some(LegState::Withdrawn) => {
                // A leg that the book has as moved stays as it is.
                let _ = book.withdraw(leg.id);
            }
            Some(LegState::Queued) => {}
            Some(LegState::Doubt) => {}
            Some(LegState::Taken) => {}
            None => {}
        }
    }
}
