//! What is seen of a world before the dispatcher is killed.

use dialect::Dialect;
use leg::{LegState, VenueId};
use replay::World;
use std::alloc::{AllocError, Global};
use sweep_release::DeskEntry;

/// What was seen of a world before the dispatcher was killed.
#[derive(Debug, Drop)]
pub(crate) struct CrashSeen {
    pub(crate) sweeps: u64,
    pub(crate) venues: Vec<VenueSeen>,
}

/// What was seen of a venue.
#[derive(Debug, Drop)]
pub(crate) struct VenueSeen {
    pub(crate) is_connected: bool,
    /// Of each leg, by ordinal, whether it was withdrawn.
    pub(crate) withdrawn: Vec<bool>,
}

impl CrashSeen {
    /// Sees a world. The only refusal is out of memory.
    pub(crate) fn of<D: Dialect + Drop>(
        alloc: Global,
        world: &World<D>,
    ) -> Result<CrashSeen, AllocError> {
        let mut venues = Vec::new(alloc);
        for number in 0..world.venues() {
            let Ok(venue) = VenueId::new(number as u8) else {
                break;
            };
            venues.push(VenueSeen::of(alloc, world, venue)?)?;
        }
        Ok(CrashSeen {
            sweeps: sweep_count(world),
            venues,
        })
    }
}

impl VenueSeen {
    fn of<D: Dialect + Drop>(
        alloc: Global,
        world: &World<D>,
        venue: VenueId,
    ) -> Result<VenueSeen, AllocError> {
        let is_connected = match world.phase(venue) {
            Some(phase) => phase.is_connected(),
            None => false,
        };
        let mut withdrawn = Vec::new(alloc);
        for place in 0..world.released(venue).len() {
            withdrawn.push(is_withdrawn(world.state(venue, place as u64 + 1)))?;
        }
        Ok(VenueSeen {
            is_connected,
            withdrawn,
        })
    }

    /// Whether the leg of a place was withdrawn.
    pub(crate) fn was_withdrawn(&self, place: usize) -> bool {
        match self.withdrawn.get(place) {
            Some(withdrawn) => *withdrawn,
            None => false,
        }
    }
}

/// Whether this is the state of a leg that is withdrawn.
pub(crate) fn is_withdrawn(state: Option<LegState>) -> bool {
    matches!(state, Some(LegState::Withdrawn))
}

/// How many sweeps there are.
pub(crate) fn sweep_count<D: Dialect + Drop>(world: &World<D>) -> u64 {
    let mut count: u64 = 0;
    for entry in world.desk().history() {
        if let DeskEntry::Released(_) = entry {
            count = count.saturating_add(1);
        }
    }
    count
}
