//! A venue, as it is drawn.

mod crash;
mod marks;

use crate::arrow::Arrow;
use crate::band::Band;
use crate::counts::Counts;
use crate::direction::Direction;
use crate::mark::{End, Mark, Tone};
use crate::seen::{Brought, Seen};
use dialect::Dialect;
use replay::World;
use std::alloc::{AllocError, Global};

/// A venue, as it is drawn between two life lines: its frames in each direction, its connections and what is marked.
#[derive(Debug, Drop)]
pub(crate) struct Lane {
    pub(crate) to: Direction,
    pub(crate) from: Direction,
    pub(crate) bands: Vec<Band>,
    pub(crate) marks: Vec<Mark>,
    /// The slots in which the dispatcher was killed.
    pub(crate) bars: Vec<u64>,
    /// How many legs are told as settled, in the order of their ordinals.
    settled: usize,
}

impl Lane {
    /// A venue where nothing happened.
    pub(crate) fn new(alloc: Global) -> Lane {
        Lane {
            to: Direction::new(alloc),
            from: Direction::new(alloc),
            bands: Vec::new(alloc),
            marks: Vec::new(alloc),
            bars: Vec::new(alloc),
            settled: 0,
        }
    }

    /// An event happened at the venue, in a row that begins with this slot. It gives the slot behind the row.
    pub(crate) fn draw<D: Dialect + Drop>(
        &mut self,
        alloc: Global,
        world: &World<D>,
        seen: &Seen,
        now: &Counts,
        slot: u64,
    ) -> Result<u64, AllocError> {
        self.land(seen, now, slot)?;
        self.connect(&seen.counts, now, slot)?;
        let session = self.to.send(alloc, slot, world.frames_to(seen.venue))?;
        let session = self.mark_session(alloc, world, seen, now, session)?;
        let exchange = self.from.send(alloc, slot, world.frames_from(seen.venue))?;
        let exchange = self.mark_exchange(alloc, seen, now, exchange)?;
        Ok(session.max(exchange).max(slot.saturating_add(1)))
    }

    /// The frame that the event brought came to its other end.
    fn land(&mut self, seen: &Seen, now: &Counts, slot: u64) -> Result<(), AllocError> {
        let is_taken = seen.counts != *now;
        match seen.brought {
            Brought::ToExchange(frame) => self.to.land(frame, slot, is_taken),
            Brought::ToSession(frame) => self.from.land(frame, slot, is_taken),
            Brought::Nothing | Brought::ExchangeBreak => Ok(()),
        }
    }

    /// A connection began or ended, if one did.
    fn connect(&mut self, before: &Counts, now: &Counts, slot: u64) -> Result<(), AllocError> {
        if before.phase.is_connected() && !now.phase.is_connected() {
            self.end_band(slot);
        }
        if before.connection < now.connection {
            self.bands.push(Band {
                connection: now.connection,
                first: slot,
                last: None,
            })?;
        }
        Ok(())
    }

    /// The last connection ended in a slot.
    fn end_band(&mut self, slot: u64) {
        if let Some(band) = self.bands.last_mut() {
            band.last = Some(slot);
        }
    }

    /// Marks something in a slot. It gives the next slot.
    fn mark(&mut self, end: End, slot: u64, tone: Tone, text: Vec<u8>) -> Result<u64, AllocError> {
        self.marks.push(Mark {
            end,
            slot,
            tone,
            text,
        })?;
        Ok(slot.saturating_add(1))
    }
}

/// Whether a frame that never came to the other end is lost with its connection.
pub(crate) fn is_lost(bands: &[Band], arrow: &Arrow) -> bool {
    match bands.last() {
        Some(band) => arrow.connection != band.connection || band.last.is_some(),
        None => true,
    }
}
