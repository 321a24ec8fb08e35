//! A line of a journal, in words.

use leg::VenueId;
use schedule::{Event, FrameNumber};
use std::fmt;

/// What the dispatcher did, by a line of its journal at a venue.
#[derive(Clone, Copy, Debug)]
pub(crate) enum LineWords {
    Drop(VenueId),
    Take(VenueId),
    Connect(VenueId),
    From(VenueId, FrameNumber),
    Break(VenueId),
    Quiet(VenueId),
    Silent(VenueId),
    Close(VenueId),
    Abandon(VenueId),
    /// It started again.
    Start,
}

impl LineWords {
    /// Those of the line that an event writes, if it writes one.
    pub(crate) fn of(event: &Event) -> Option<LineWords> {
        match event {
            Event::Drop(venue) => Some(LineWords::Drop(*venue)),
            Event::Take(venue) => Some(LineWords::Take(*venue)),
            Event::Connect(venue) => Some(LineWords::Connect(*venue)),
            Event::ToDispatcher { venue, frame } => Some(LineWords::From(*venue, *frame)),
            Event::Break(venue) => Some(LineWords::Break(*venue)),
            Event::Quiet(venue) => Some(LineWords::Quiet(*venue)),
            Event::Silent(venue) => Some(LineWords::Silent(*venue)),
            Event::Close(venue) => Some(LineWords::Close(*venue)),
            Event::Abandon(venue) => Some(LineWords::Abandon(*venue)),
            _ => None,
        }
    }
}

/// A line of a venue's journal: the number of the event that wrote it, and what the event was.
#[derive(Clone, Copy, Debug)]
pub struct JournalLine {
    pub(crate) number: u64,
    pub(crate) words: LineWords,
}

impl fmt::Display for JournalLine {
    fn fmt<W: fmt::Write>(&self, f: &mut fmt::Formatter<W>) -> fmt::Result {
        let number = self.number;
        match self.words {
            LineWords::Drop(venue) => write!(f, "{number} drop {venue}"),
            LineWords::Take(venue) => write!(f, "{number} take {venue}"),
            LineWords::Connect(venue) => write!(f, "{number} connect {venue}"),
            LineWords::From(venue, frame) => write!(f, "{number} from {venue} {frame}"),
            LineWords::Break(venue) => write!(f, "{number} break {venue}"),
            LineWords::Quiet(venue) => write!(f, "{number} quiet {venue}"),
            LineWords::Silent(venue) => write!(f, "{number} silent {venue}"),
            LineWords::Close(venue) => write!(f, "{number} close {venue}"),
            LineWords::Abandon(venue) => write!(f, "{number} abandon {venue}"),
            LineWords::Start => write!(f, "{number} crash"),
        }
    }
}
