//! What happened at the desk.

use leg::{Sweep, VenueId};

/// A line of the desk's history: a call that changed it.
#[derive(Debug, Drop)]
pub enum DeskEntry {
    /// A sweep was released, under the number after the last one's, from 1.
    Released(Sweep),
    /// The gate was put up.
    Up(VenueId),
    /// The gate was put down.
    Down(VenueId),
    /// The gate was shut, for good.
    Shut(VenueId),
    /// The next leg was taken to the venue.
    Taken(VenueId),
    /// The next leg was dropped, as the gate wasn't up.
    Dropped(VenueId),
}
