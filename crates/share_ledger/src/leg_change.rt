//! What a note makes of a leg.

use crate::BookedLeg;

/// What a note makes of its leg: the leg before it, and after it.
#[derive(Clone, Copy, Debug, PartialEq, Eq)]
pub struct LegChange {
    pub was: BookedLeg,
    pub now: BookedLeg,
}
