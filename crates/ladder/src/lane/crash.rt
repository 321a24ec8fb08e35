//! The dispatcher is killed.

use super::Lane;
use crate::crash_seen::{VenueSeen, is_withdrawn};
use crate::mark::{End, Tone};
use dialect::Dialect;
use leg::{LegState, VenueId};
use replay::World;
use std::alloc::{AllocError, Global};

impl Lane {
    /// The dispatcher was killed and started again in a row that begins with this slot, and this was lost. It gives the
    /// slot behind the row.
    pub(crate) fn crash<D: Dialect + Drop>(
        &mut self,
        alloc: Global,
        world: &World<D>,
        venue: VenueId,
        seen: &VenueSeen,
        lost: &[u8],
        slot: u64,
    ) -> Result<u64, AllocError> {
        if seen.is_connected {
            self.end_band(slot);
        }
        self.bars.push(slot)?;
        let frames = world.frames_to(venue).len();
        let gone = self.to.arrows.len().saturating_sub(frames);
        self.to.lose(frames)?;
        let mut text = Vec::new(alloc);
        text.extend_from_slice(lost)?;
        let mut slot = self.mark(End::Session, slot, Tone::Bad, text)?;
        if gone > 0 {
            let text = format!(in alloc; "frames never written: {gone}")?.into_bytes();
            slot = self.mark(End::Session, slot, Tone::Bad, text)?;
        }
        self.settled = 0;
        self.mark_withdrawn(alloc, world, venue, seen, slot)
    }

    /// Marks the legs that the start withdrew, and takes those as told that are settled.
    fn mark_withdrawn<D: Dialect + Drop>(
        &mut self,
        alloc: Global,
        world: &World<D>,
        venue: VenueId,
        seen: &VenueSeen,
        slot: u64,
    ) -> Result<u64, AllocError> {
        let mut slot = slot;
        for (place, leg) in world.released(venue).iter().enumerate() {
            let state = world.state(venue, place as u64 + 1);
            if self.settled == place && is_settled(state) {
                self.settled = place + 1;
            }
            if is_withdrawn(state) && !seen.was_withdrawn(place) {
                let id = leg.id;
                let text = format!(in alloc; "{id} withdrawn")?.into_bytes();
                slot = self.mark(End::Session, slot, Tone::Bad, text)?;
            }
        }
        Ok(slot)
    }
}

/// Whether it is settled what became of a leg in this state.
fn is_settled(state: Option<LegState>) -> bool {
    matches!(state, Some(LegState::Taken) | Some(LegState::Withdrawn))
}
