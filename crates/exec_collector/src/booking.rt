//! What the book made of what a worker asked of it.

use dialect::Note;
use leg::LegId;
use share_ledger::Applied;

/// What a worker asked of the book, what was answered, and how many entries the book had before. No value of it is
/// made: contracts alone tell of bookings.
#[derive(Drop)]
pub enum Booking {
    /// A note was given.
    Given(Note, Applied, u64),
    /// A leg was to be withdrawn, and whether the book withdrew it.
    Asked(LegId, bool, u64),
}
