//! What is seen of an event before it happens.

use crate::counts::Counts;
use dialect::Dialect;
use leg::VenueId;
use replay::{World, venue_of};
use schedule::{Event, FrameNumber};

/// What an event brings to an end of the connection.
#[derive(Clone, Copy, Debug)]
pub(crate) enum Brought {
    Nothing,
    ToExchange(FrameNumber),
    ToSession(FrameNumber),
    /// The exchange's end of the connection is gone.
    ExchangeBreak,
}

/// What was seen of an event before it happened.
#[derive(Clone, Copy, Debug)]
pub(crate) struct Seen {
    /// The venue of the event, or the first, where it is at none.
    pub(crate) venue: VenueId,
    /// Whether the event is at no venue: it is a release.
    pub(crate) is_release: bool,
    pub(crate) counts: Counts,
    pub(crate) brought: Brought,
}

impl Seen {
    /// Sees an event that is to happen in this world.
    pub(crate) fn of<D: Dialect + Drop>(world: &World<D>, event: &Event) -> Seen {
        let (venue, is_release) = match venue_of(event) {
            Some(venue) => (venue, false),
            None => (first_venue(), true),
        };
        Seen {
            venue,
            is_release,
            counts: Counts::of(world, venue),
            brought: brought_by(world, event),
        }
    }
}

fn first_venue() -> VenueId {
    VenueId::new(0).unwrap()
}

/// What an event brings. A frame comes to the session only in the connection that it was written in.
fn brought_by<D: Dialect + Drop>(world: &World<D>, event: &Event) -> Brought {
    match event {
        Event::ToExchange { frame, .. } => Brought::ToExchange(*frame),
        Event::ToDispatcher { venue, frame } => {
            if comes_in(world, *venue, *frame) {
                Brought::ToSession(*frame)
            } else {
                Brought::Nothing
            }
        }
        Event::ExchangeBreak(_) => Brought::ExchangeBreak,
        _ => Brought::Nothing,
    }
}

/// Whether the frame of a number can come to the session.
fn comes_in<D: Dialect + Drop>(world: &World<D>, venue: VenueId, number: FrameNumber) -> bool {
    let Some(phase) = world.phase(venue) else {
        return false;
    };
    if !phase.is_connected() || number == 0 {
        return false;
    }
    match world.frames_from(venue).get((number - 1) as usize) {
        Some(frame) => frame.connection == world.connection(venue),
        None => false,
    }
}
