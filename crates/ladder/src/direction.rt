//! The frames of one direction.

use crate::arrow::{Arrow, Landing};
use crate::label::label;
use std::alloc::{AllocError, Global};
use venue_replay::Frame;

/// The frames of one direction of a venue.
#[derive(Debug, Drop)]
pub(crate) struct Direction {
    pub(crate) arrows: Vec<Arrow>,
    /// The frames that a crash took away.
    pub(crate) gone: Vec<Arrow>,
    /// The place of the last frame, of those that came, counted from 1.
    last: u64,
}

impl Direction {
    /// None yet.
    pub(crate) fn new(alloc: Global) -> Direction {
        Direction {
            arrows: Vec::new(alloc),
            gone: Vec::new(alloc),
            last: 0,
        }
    }

    /// The frames that were written since were sent, each in a slot of its own from this one on. It gives the slot
    /// behind them.
    pub(crate) fn send(
        &mut self,
        alloc: Global,
        first: u64,
        frames: &[Frame],
    ) -> Result<u64, AllocError> {
        let mut slot = first;
        for place in self.arrows.len()..frames.len() {
            let frame = &frames[place];
            self.arrows.push(Arrow {
                connection: frame.connection,
                slot,
                label: label(alloc, place as u64 + 1, frame)?,
                landings: Vec::new(alloc),
            })?;
            slot = slot.saturating_add(1);
        }
        Ok(slot)
    }

    /// All frames behind so many were lost in a crash.
    pub(crate) fn lose(&mut self, kept: usize) -> Result<(), AllocError> {
        for _ in kept..self.arrows.len() {
            if let Some(arrow) = self.arrows.pop() {
                self.gone.push(arrow)?;
            }
        }
        self.last = self.last.min(kept as u64);
        Ok(())
    }

    /// The frame of a number, counted from 1, came to the other end in a slot, if there is such a frame.
    pub(crate) fn land(
        &mut self,
        number: u64,
        slot: u64,
        is_taken: bool,
    ) -> Result<(), AllocError> {
        if number == 0 {
            return Ok(());
        }
        let is_late = number < self.last;
        let Some(arrow) = self.arrows.get_mut((number - 1) as usize) else {
            return Ok(());
        };
        arrow.landings.push(Landing {
            slot,
            is_late,
            is_taken,
        })?;
        self.last = self.last.max(number);
        Ok(())
    }
}
