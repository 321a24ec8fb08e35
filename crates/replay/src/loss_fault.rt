//! What can't have been lost.

use leg::VenueId;

/// Which rule of the journal forbids that so much was lost in a crash.
#[derive(Clone, Copy, Debug, PartialEq, Eq)]
pub enum LossFault {
    /// More sweeps than were placed; so many were.
    Sweeps { placed: u64 },
    /// No line of the venue's journal would be left; it has so many, with that of its opening.
    Journal { venue: VenueId, lines: u64 },
    /// This frame came to the exchange, and the line that tells it would be lost: before a frame goes to the exchange
    /// its line is on the disk.
    Wire { venue: VenueId, frame: u64 },
    /// So many legs of the venue had left the desk by the last kept line, and the kept sweeps have fewer: before a leg
    /// leaves the desk its sweep is on the disk.
    Release { venue: VenueId, left: u64 },
    /// The leg of this ordinal is withdrawn, and wouldn't be any more: before the book is asked to withdraw a leg, the
    /// line that says so is on the disk.
    Withdrawal { venue: VenueId, ordinal: u64 },
}
