//! The legs of a venue that were withdrawn, and those in doubt.

ghost use Rattle.std.specs.Prelude.{◌≡◌, IfOk};
ghost use Rattle.schedule.specs.World.{withdrawn_ids, doubtful_ids};

use dialect::Dialect;
use leg::{LegId, LegState, VenueId};
use replay::World;
use std::alloc::{AllocError, Global};

/// Legs of a venue, by ordinal.
#[derive(Debug, Drop)]
pub struct LegsByState {
    pub withdrawn: Vec<LegId>,
    pub in_doubt: Vec<LegId>,
}

/// The legs of a venue that were withdrawn, and those in doubt.
pub fn legs_by_state<D: Dialect + Drop>(
    alloc: Global,
    world: &World<D>,
    venue: VenueId,
) -> Result<LegsByState, AllocError>
    ensures withdrawn { IfOk result (λ legs. legs.withdrawn.items ≡ withdrawn_ids world.now venue) }
    ensures in_doubt { IfOk result (λ legs. legs.in_doubt.items ≡ doubtful_ids world.now venue) }
{
    let mut withdrawn = Vec::new(alloc);
    let mut in_doubt = Vec::new(alloc);
    for (at, leg) in world.released(venue).iter().enumerate() {
        match world.state(venue, at as u64 + 1) {
            Some(LegState::Withdrawn) => withdrawn.push(leg.id)?,
            Some(LegState::Doubt) => in_doubt.push(leg.id)?,
            Some(LegState::Queued) => {}
            Some(LegState::Taken) => {}
            None => {}
        }
    }
    Ok(LegsByState {
        withdrawn,
        in_doubt,
    })
}
