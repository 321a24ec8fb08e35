//! What a line of a venue's journal says.

use crate::act::Act;
use crate::leg_act::LegAct;
use fix_tags::Stamp;
use leg::PlacedLeg;

/// What a venue's worker did.
#[derive(Debug, Drop)]
pub enum Deed {
    /// Its session was called.
    Act(Act),
    /// It took a leg.
    Leg(LegAct, PlacedLeg),
    /// A message came, whose fields are in the list that the reader was given.
    Heard,
}

/// A deed, and when it was done.
#[derive(Debug, Drop)]
pub struct DeedLine {
    pub stamp: Stamp,
    pub deed: Deed,
}
