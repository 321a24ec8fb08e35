//! The lines of the journals, by the events that wrote them.

ghost use Rattle.std.specs.Prelude.{◌≤◌};

use crate::journal_line::{JournalLine, LineWords};
use leg::VenueId;
use replay::venue_of;
use schedule::Event;
use std::alloc::{AllocError, Global};

/// Of each venue's journal, the lines behind its first: which event wrote each.
#[derive(Debug, Drop)]
pub struct JournalLines {
    venues: Vec<Vec<JournalLine>>,
}

impl JournalLines {
    /// The journals of so many venues, with no line behind the first. The only refusal is out of memory.
    pub fn new(alloc: Global, venues: usize) -> Result<JournalLines, AllocError> {
        let mut lines = Vec::with_capacity(alloc, venues)?;
        for _ in 0..venues {
            lines.push(Vec::new(alloc))?;
        }
        Ok(JournalLines { venues: lines })
    }

    /// The event of this number writes its line, if it writes one. The only refusal is out of memory.
    pub fn write(&mut self, number: u64, event: &Event) -> Result<(), AllocError> {
        let (Some(venue), Some(words)) = (venue_of(event), LineWords::of(event)) else {
            return Ok(());
        };
        if let Some(lines) = self.venues.get_mut(usize::from(venue.number())) {
            lines.push(JournalLine { number, words })?;
        }
        Ok(())
    }

    /// So many of the last lines of a venue's journal, the oldest first.
    pub fn last(&self, venue: VenueId, count: u64) -> &[JournalLine] {
        match self.venues.get(usize::from(venue.number())) {
            Some(lines) => &lines[kept_of(lines.len(), count)..],
            None => &[],
        }
    }

    /// The dispatcher starts again, by the event of this number: so many of the last lines of each journal are lost,
    /// and each goes on with a line of the start. The only refusal is out of memory.
    pub fn start(&mut self, number: u64, lost: &[u64]) -> Result<(), AllocError> {
        for (place, lines) in self.venues.iter_mut().enumerate() {
            let count = match lost.get(place) {
                Some(count) => *count,
                None => 0,
            };
            lines.truncate(kept_of(lines.len(), count));
            lines.push(JournalLine {
                number,
                words: LineWords::Start,
            })?;
        }
        Ok(())
    }
}

/// How many lines are kept of these, where so many are lost.
fn kept_of(lines: usize, lost: u64) -> usize
    ensures { result ≤ lines }
{
    (lines as u64).saturating_sub(lost) as usize
}
