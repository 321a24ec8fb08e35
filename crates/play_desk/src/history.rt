//! The histories of the desk and of the book, a line for each call that changed it.

use crate::note_text::note_text;
use case_text::{Answers, PlayFault};
use leg::Sweep;
use share_ledger::{Book, BookEntry};
use std::alloc::{AllocError, Global};
use sweep_release::{Desk, DeskEntry};

fn sweep_entry(alloc: Global, what: &str, sweep: &Sweep) -> Result<String, AllocError> {
    let legs = sweep.legs.len();
    format!(in alloc; "{what} a sweep of {legs}")
}

fn desk_entry(alloc: Global, entry: &DeskEntry) -> Result<String, AllocError> {
    match entry {
        DeskEntry::Released(sweep) => sweep_entry(alloc, "released", sweep),
        DeskEntry::Up(venue) => format!(in alloc; "up {venue}"),
        DeskEntry::Down(venue) => format!(in alloc; "down {venue}"),
        DeskEntry::Shut(venue) => format!(in alloc; "shut {venue}"),
        DeskEntry::Taken(venue) => format!(in alloc; "taken {venue}"),
        DeskEntry::Dropped(venue) => format!(in alloc; "dropped {venue}"),
    }
}

fn book_entry(alloc: Global, entry: &BookEntry) -> Result<String, AllocError> {
    match entry {
        BookEntry::Opened(sweep) => sweep_entry(alloc, "opened", sweep),
        BookEntry::Withdrawn(id) => format!(in alloc; "withdrawn {id}"),
        BookEntry::Moved(venue, note) => {
            let note = note_text(alloc, note)?;
            format!(in alloc; "moved {venue} {note}")
        }
    }
}

/// Tells the entries of a desk.
pub fn tell_desk(alloc: Global, desk: &Desk, answers: &mut Answers) -> Result<(), PlayFault> {
    for entry in desk.history() {
        let text = desk_entry(alloc, entry)?;
        answers.say(&text)?;
    }
    Ok(())
}

/// Tells the entries of a book.
pub fn tell_book(alloc: Global, book: &Book, answers: &mut Answers) -> Result<(), PlayFault> {
    for entry in book.history() {
        let text = book_entry(alloc, entry)?;
        answers.say(&text)?;
    }
    Ok(())
}
