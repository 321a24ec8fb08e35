//! Where an execution stands.

ghost use Rattle.std.specs.Prelude.{◌≡◌, Some};
ghost use Rattle.day_executions.specs.Executions.{found, left};
ghost use Rattle.day_executions.specs.Walk.{if_untaken};

use crate::heard::{Heard, booked, left};
use exec_collector::Unbooked;
use share_ledger::{Applied, BookEntry};

/// Where an execution stands.
#[derive(Clone, Copy, Debug, PartialEq, Eq)]
pub(crate) enum Place {
    /// At this place of the book's history.
    Booked(usize),
    /// At this place of the list of what the book didn't take.
    Left(usize),
}

/// What stands at a place.
pub(crate) fn found(history: &[BookEntry], unbooked: &[Unbooked], place: Place) -> Option<Heard>
    ensures { result ≡ found history.now unbooked.now place }
{
    match place {
        Place::Booked(at) => match history.get(at) {
            Some(entry) => booked(entry),
            None => None,
        },
        Place::Left(at) => match unbooked.get(at) {
            Some(item) => Some(left(item)),
            None => None,
        },
    }
}

/// What stands at a place, if the book didn't take it.
pub(crate) fn untaken_at(
    history: &[BookEntry],
    unbooked: &[Unbooked],
    place: Place,
) -> Option<Heard>
    ensures { result ≡ if_untaken (found history.now unbooked.now place) }
{
    match place {
        Place::Booked(_) => None,
        Place::Left(at) => match unbooked.get(at) {
            Some(item) => left_if_untaken(item),
            None => None,
        },
    }
}

/// What an exchange said that the book answered otherwise than that it took it.
fn left_if_untaken(item: &Unbooked) -> Option<Heard>
    ensures { result ≡ if_untaken (Some (left item.now)) }
{
    match item.answer {
        Applied::Moved => None,
        Applied::Duplicate | Applied::Overfill | Applied::Stray => Some(left(item)),
    }
}
