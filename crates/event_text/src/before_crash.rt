//! How far a world had come when the dispatcher was killed.

use dialect::Dialect;
use leg::{LegState, VenueId};
use replay::World;
use std::alloc::{AllocError, Global};
use sweep_release::DeskEntry;

/// How far a world had come when the dispatcher was killed.
#[derive(Debug, Drop)]
pub struct BeforeCrash {
    pub(crate) sweeps: usize,
    pub(crate) venues: Vec<VenueBeforeCrash>,
}

/// How far a venue had come.
#[derive(Debug, Drop)]
pub(crate) struct VenueBeforeCrash {
    pub(crate) frames_to: usize,
    /// How far each leg was, by ordinal.
    pub(crate) states: Vec<Option<LegState>>,
}

impl BeforeCrash {
    /// How far a world has come. The only refusal is out of memory.
    pub fn of<D: Dialect + Drop>(
        alloc: Global,
        world: &World<D>,
    ) -> Result<BeforeCrash, AllocError> {
        let mut venues = Vec::new(alloc);
        for number in 0..world.venues() {
            let Ok(venue) = VenueId::new(number as u8) else {
                break;
            };
            venues.push(VenueBeforeCrash {
                frames_to: world.frames_to(venue).len(),
                states: states_of(alloc, world, venue)?,
            })?;
        }
        Ok(BeforeCrash {
            sweeps: sweep_count(world),
            venues,
        })
    }
}

/// How far each leg of a venue is, by ordinal.
fn states_of<D: Dialect + Drop>(
    alloc: Global,
    world: &World<D>,
    venue: VenueId,
) -> Result<Vec<Option<LegState>>, AllocError> {
    let mut states = Vec::new(alloc);
    for place in 0..world.released(venue).len() {
        states.push(world.state(venue, place as u64 + 1))?;
    }
    Ok(states)
}

/// How many sweeps there are.
pub(crate) fn sweep_count<D: Dialect + Drop>(world: &World<D>) -> usize {
    let mut count: usize = 0;
    for entry in world.desk().history() {
        if let DeskEntry::Released(_) = entry {
            count = count.saturating_add(1);
        }
    }
    count
}
