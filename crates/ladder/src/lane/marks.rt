//! What is marked of an event.

use super::Lane;
use crate::counts::Counts;
use crate::mark::{End, Tone};
use crate::seen::{Brought, Seen};
use dialect::{Dialect, Note, Report, ReportKind};
use leg::{LegState, VenueId};
use replay::World;
use session_core::Phase;
use share_ledger::BookEntry;
use std::alloc::{AllocError, Global};

impl Lane {
    /// Marks what the session and the book made of an event, from a slot on. It gives the slot behind.
    pub(super) fn mark_session<D: Dialect + Drop>(
        &mut self,
        alloc: Global,
        world: &World<D>,
        seen: &Seen,
        now: &Counts,
        slot: u64,
    ) -> Result<u64, AllocError> {
        let slot = self.mark_taken(alloc, world, seen.venue, slot)?;
        let slot = self.mark_book(alloc, world, seen.counts.book_entries, slot)?;
        self.mark_phase(alloc, &seen.counts, now, slot)
    }

    /// Marks the legs of a venue of which it is settled now that the exchange has them.
    fn mark_taken<D: Dialect + Drop>(
        &mut self,
        alloc: Global,
        world: &World<D>,
        venue: VenueId,
        slot: u64,
    ) -> Result<u64, AllocError> {
        let legs = world.released(venue);
        let mut slot = slot;
        for place in self.settled..legs.len() {
            match world.state(venue, place as u64 + 1) {
                Some(LegState::Taken) => {
                    let id = legs[place].id;
                    let text = format!(in alloc; "{id} taken")?.into_bytes();
                    slot = self.mark(End::Session, slot, Tone::Good, text)?;
                }
                Some(LegState::Withdrawn) => {}
                _ => return Ok(slot),
            }
            self.settled = place + 1;
        }
        Ok(slot)
    }

    /// Marks the legs that the book has as withdrawn, and the notes that it booked, behind so many entries.
    fn mark_book<D: Dialect + Drop>(
        &mut self,
        alloc: Global,
        world: &World<D>,
        before: usize,
        slot: u64,
    ) -> Result<u64, AllocError> {
        let entries = world.book().history();
        let mut slot = slot;
        for place in before..entries.len() {
            slot = self.mark_entry(alloc, &entries[place], slot)?;
        }
        Ok(slot)
    }

    fn mark_entry(
        &mut self,
        alloc: Global,
        entry: &BookEntry,
        slot: u64,
    ) -> Result<u64, AllocError> {
        match entry {
            BookEntry::Opened(_) => Ok(slot),
            BookEntry::Withdrawn(leg) => {
                let text = format!(in alloc; "{leg} withdrawn")?.into_bytes();
                self.mark(End::Session, slot, Tone::Bad, text)
            }
            BookEntry::Moved(_, note) => {
                let text = booked_text(alloc, note)?.into_bytes();
                self.mark(End::Session, slot, Tone::Good, text)
            }
        }
    }

    /// Marks how far the session has come, where it is up or closed, or lost its connection.
    fn mark_phase(
        &mut self,
        alloc: Global,
        before: &Counts,
        now: &Counts,
        slot: u64,
    ) -> Result<u64, AllocError> {
        if before.phase == now.phase {
            return Ok(slot);
        }
        let (tone, text): (Tone, &[u8]) = match now.phase {
            Phase::Up => (Tone::Good, b"session up"),
            Phase::Closed => (Tone::Plain, b"session closed"),
            Phase::Down => (Tone::Bad, b"connection over"),
            _ => return Ok(slot),
        };
        let text = text_of(alloc, text)?;
        self.mark(End::Session, slot, tone, text)
    }

    /// Marks what the exchange made of an event besides its frames, from a slot on. It gives the slot behind.
    pub(super) fn mark_exchange(
        &mut self,
        alloc: Global,
        seen: &Seen,
        now: &Counts,
        slot: u64,
    ) -> Result<u64, AllocError> {
        let slot = match seen.brought {
            Brought::ExchangeBreak => {
                let text = text_of(alloc, b"connection gone")?;
                self.mark(End::Exchange, slot, Tone::Bad, text)?
            }
            _ => slot,
        };
        if seen.counts.is_closed || !now.is_closed {
            return Ok(slot);
        }
        let text = text_of(alloc, b"exchange closed")?;
        self.mark(End::Exchange, slot, Tone::Plain, text)
    }
}

/// A text's own bytes.
fn text_of(alloc: Global, bytes: &[u8]) -> Result<Vec<u8>, AllocError> {
    let mut text = Vec::with_capacity(alloc, bytes.len())?;
    text.extend_from_slice(bytes)?;
    Ok(text)
}

/// A note that the book booked, as `S1L1 60 shares booked`.
fn booked_text(alloc: Global, note: &Note) -> Result<String, AllocError> {
    match note {
        Note::Report(report) => report_text(alloc, report),
        Note::Refused(id) => format!(in alloc; "{id} refusal booked"),
        Note::Unread(_) => String::from_str(alloc, "booked"),
    }
}

fn report_text(alloc: Global, report: &Report) -> Result<String, AllocError> {
    let id = report.id;
    match &report.kind {
        ReportKind::New => format!(in alloc; "{id} new booked"),
        ReportKind::Trade(fill) => {
            let shares = fill.shares();
            format!(in alloc; "{id} {shares} shares booked")
        }
        ReportKind::Canceled => format!(in alloc; "{id} cancel booked"),
        ReportKind::Rejected => format!(in alloc; "{id} reject booked"),
        ReportKind::Expired => format!(in alloc; "{id} expiry booked"),
        ReportKind::Bust { .. } => format!(in alloc; "{id} bust booked"),
    }
}
