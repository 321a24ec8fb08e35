//! What a venue's journal keeps of a line.

use leg::PlacedLeg;
use schedule::FrameNumber;

/// What a venue's journal keeps of a line: what the dispatcher did there. Done again, in order, the deeds lead from the
/// opening to how it stood.
#[derive(Debug, Drop)]
pub enum Deed {
    /// Nothing came of the event.
    Nothing,
    /// The next leg was handed to the session, which sent it, or had no number left for it, or refused it.
    Took(PlacedLeg),
    /// The next leg was dropped.
    Dropped,
    /// The session was called to connect.
    Connected,
    /// The session wrote nothing for a while.
    Quieted,
    /// The session heard nothing for a while.
    Silenced,
    /// The session was called to close.
    Closed,
    /// The session was given up.
    Abandoned,
    /// This frame of those that the exchange ever wrote came to the session.
    Heard(FrameNumber),
    /// The session's end of the connection broke.
    Broke,
    /// The dispatcher was started: so many legs had left the desk, all that were released by the kept sweeps.
    Started(usize),
}
