//! What is written in the book.

use dialect::Note;
use leg::{LegId, Sweep, VenueId};

/// A line of the book's history: a call that changed it.
#[derive(Debug, Drop)]
pub enum BookEntry {
    /// A sweep was opened, under the number after the last one's, from 1.
    Opened(Sweep),
    /// A leg was withdrawn: it never reaches its venue.
    Withdrawn(LegId),
    /// A note of that venue was booked.
    Moved(VenueId, Note),
}
