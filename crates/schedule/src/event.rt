//! What may happen in the world.

use crate::act::Act;
use leg::{Sweep, VenueId};

/// Which of the frames ever written in one direction of a venue's network, counted from 1.
pub type FrameNumber = u64;

/// What may happen next. A frame that is lost is one that is never delivered, and one that comes again is delivered
/// twice.
#[derive(Debug, Drop)]
pub enum Event {
    /// A caller releases a sweep.
    Release(Sweep),
    /// The gate of a venue goes up.
    GateUp(VenueId),
    /// The gate of a venue goes down.
    GateDown(VenueId),
    /// The next leg of a venue whose gate isn't up is dropped, and withdrawn.
    Drop(VenueId),
    /// The next leg of a venue is taken, and sent.
    Take(VenueId),
    /// The session connects.
    Connect(VenueId),
    /// A frame written to the exchange comes to it.
    ToExchange { venue: VenueId, frame: FrameNumber },
    /// A frame written by the exchange comes to the session.
    ToDispatcher { venue: VenueId, frame: FrameNumber },
    /// The session's end of the connection breaks.
    Break(VenueId),
    /// The exchange's end of the connection breaks.
    ExchangeBreak(VenueId),
    /// The exchange does something by itself.
    Act { venue: VenueId, act: Act },
    /// The session wrote nothing for a while.
    Quiet(VenueId),
    /// The session heard nothing for a while.
    Silent(VenueId),
    /// The session is to close, and the gate is shut.
    Close(VenueId),
    /// The gate is shut, and the session is given up.
    Abandon(VenueId),
}
