//! What an exchange said, with the book's answer.

ghost use Rattle.std.specs.Prelude.{◌≡◌, ◌++◌, option_to_list, OnOk};
ghost use Rattle.day_executions.specs.Executions.{booked, left, numbered};

use dialect::Note;
use exec_collector::Unbooked;
use leg::VenueId;
use share_ledger::{Applied, BookEntry};
use std::alloc::AllocError;

/// What the exchange of a venue said, and what the book did with it.
#[derive(Debug, Drop)]
pub struct Heard {
    pub venue: VenueId,
    pub note: Note,
    pub answer: Applied,
}

/// The same, under its number.
#[derive(Debug, Drop)]
pub struct HeardNote {
    /// From 1, in the order of the book.
    pub number: u64,
    pub heard: Heard,
}

fn copy_of(note: &Note) -> Note
    ensures { result ≡ note.now }
{
    match note {
        Note::Report(report) => Note::Report(report.clone().unwrap()),
        Note::Refused(leg) => Note::Refused(*leg),
        Note::Unread(fault) => Note::Unread(*fault),
    }
}

/// What an exchange said by an entry of the book's history; nothing where the entry is no note.
pub(crate) fn booked(entry: &BookEntry) -> Option<Heard>
    ensures { result ≡ booked entry.now }
{
    match entry {
        BookEntry::Opened(_) => None,
        BookEntry::Withdrawn(_) => None,
        BookEntry::Moved(venue, note) => Some(Heard {
            venue: *venue,
            note: copy_of(note),
            answer: Applied::Moved,
        }),
    }
}

/// What an exchange said that the book didn't take.
pub(crate) fn left(item: &Unbooked) -> Heard
    ensures { result ≡ left item.now }
{
    Heard {
        venue: item.venue,
        note: copy_of(&item.note),
        answer: item.answer,
    }
}

/// Appends what was heard under this number, if it was.
pub(crate) fn push_heard(
    notes: &mut Vec<HeardNote>,
    number: u64,
    heard: Option<Heard>,
) -> Result<(), AllocError>
    ensures { OnOk result (notes.new.items ≡ notes.old.items ++ option_to_list (numbered number heard)) }
{
    if let Some(heard) = heard {
        notes.push(HeardNote { number, heard })?;
    }
    Ok(())
}
