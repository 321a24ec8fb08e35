//! The picture of a day.

use crate::counts::Counts;
use crate::crash_seen::{CrashSeen, sweep_count};
use crate::lane::Lane;
use crate::row::Row;
use crate::seen::Seen;
use dialect::Dialect;
use leg::VenueId;
use replay::World;
use schedule::Event;
use std::alloc::{AllocError, Global};

/// The longest text of a row that is kept; no more of one is drawn.
const MOST_TEXT: usize = 90;

/// The picture of a day, as far as it has come: a row for each event, and what happened at each venue.
#[derive(Debug, Drop)]
pub struct Ladder {
    pub(crate) rows: Vec<Row>,
    pub(crate) lanes: Vec<Lane>,
    /// How many slots the rows take.
    pub(crate) slots: u64,
    seen: Option<Seen>,
    crash_seen: Option<CrashSeen>,
}

impl Ladder {
    /// The picture of a day before its first event.
    pub fn new(alloc: Global) -> Ladder {
        Ladder {
            rows: Vec::new(alloc),
            lanes: Vec::new(alloc),
            slots: 0,
            seen: None,
            crash_seen: None,
        }
    }

    /// Sees an event that is to happen in this world. It takes no memory.
    pub fn see<D: Dialect + Drop>(&mut self, world: &World<D>, event: &Event) {
        self.seen = Some(Seen::of(world, event));
    }

    /// Draws the event that was seen, which the line of this number and text says: the world is the one after it. The
    /// only refusal is out of memory.
    pub fn draw<D: Dialect + Drop>(
        &mut self,
        alloc: Global,
        world: &World<D>,
        line: u64,
        text: &[u8],
    ) -> Result<(), AllocError> {
        let Some(seen) = self.seen else {
            return Ok(());
        };
        self.make_lanes(alloc, world.venues())?;
        let now = Counts::of(world, seen.venue);
        let slot = self.slots;
        self.slots = match self.lanes.get_mut(usize::from(seen.venue.number())) {
            Some(lane) => lane.draw(alloc, world, &seen, &now, slot)?,
            None => slot.saturating_add(1),
        };
        self.rows.push(Row {
            line,
            text: kept(alloc, text)?,
            slot,
            is_wide: seen.is_release,
            is_idle: seen.counts == now,
        })?;
        Ok(())
    }

    /// Sees a world in which the dispatcher is to be killed. The only refusal is out of memory.
    pub fn see_crash<D: Dialect + Drop>(
        &mut self,
        alloc: Global,
        world: &World<D>,
    ) -> Result<(), AllocError> {
        self.crash_seen = Some(CrashSeen::of(alloc, world)?);
        Ok(())
    }

    /// Draws the crash that was seen, which the line of this number and text says: `lost` are the lines that each
    /// venue's journal lost, and the world is the one after the start. The only refusal is out of memory.
    pub fn draw_crash<D: Dialect + Drop>(
        &mut self,
        alloc: Global,
        world: &World<D>,
        lost: &[u64],
        line: u64,
        text: &[u8],
    ) -> Result<(), AllocError> {
        let Some(seen) = self.crash_seen.take() else {
            return Ok(());
        };
        self.make_lanes(alloc, world.venues())?;
        let sweeps = seen.sweeps.saturating_sub(sweep_count(world));
        let slot = self.slots;
        let mut end = slot.saturating_add(1);
        for place in 0..world.venues() {
            let Ok(venue) = VenueId::new(place as u8) else {
                break;
            };
            let (Some(lane), Some(at)) = (self.lanes.get_mut(place), seen.venues.get(place)) else {
                break;
            };
            let lost = lost_text(alloc, sweeps, lost.get(place))?;
            end = end.max(lane.crash(alloc, world, venue, at, &lost, slot)?);
        }
        self.slots = end;
        self.rows.push(Row {
            line,
            text: kept(alloc, text)?,
            slot,
            is_wide: false,
            is_idle: false,
        })?;
        Ok(())
    }

    /// There is a lane for each of so many venues.
    fn make_lanes(&mut self, alloc: Global, venues: usize) -> Result<(), AllocError> {
        for _ in self.lanes.len()..venues {
            self.lanes.push(Lane::new(alloc))?;
        }
        Ok(())
    }
}

/// The beginning of a text.
fn kept(alloc: Global, text: &[u8]) -> Result<Vec<u8>, AllocError> {
    let most = text.len().min(MOST_TEXT);
    let mut kept = Vec::with_capacity(alloc, most)?;
    kept.extend_from_slice(&text[..most])?;
    Ok(kept)
}

/// What a crash lost, as `killed: sweeps lost 1, lines lost 2`.
fn lost_text(alloc: Global, sweeps: u64, lines: Option<&u64>) -> Result<Vec<u8>, AllocError> {
    let lines = match lines {
        Some(count) => *count,
        None => 0,
    };
    let text = match (sweeps, lines) {
        (0, 0) => String::from_str(alloc, "killed, nothing lost")?,
        (0, _) => format!(in alloc; "killed, lines lost: {lines}")?,
        (_, 0) => format!(in alloc; "killed, sweeps lost: {sweeps}")?,
        (_, _) => format!(in alloc; "killed, sweeps lost: {sweeps}, lines: {lines}")?,
    };
    Ok(text.into_bytes())
}
