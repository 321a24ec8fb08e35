//! How far a world has come.

use dialect::Dialect;
use leg::VenueId;
use replay::World;
use session_core::Phase;
use sweep_release::Gate;

/// How far a venue of a world has come, and the desk and the book. Where an event changes none of it nothing came of
/// the event.
#[derive(Clone, Copy, Debug, PartialEq, Eq)]
pub(crate) struct Counts {
    pub(crate) desk_entries: usize,
    pub(crate) book_entries: usize,
    pub(crate) gate: Gate,
    pub(crate) left: usize,
    pub(crate) connection: u64,
    pub(crate) phase: Phase,
    pub(crate) given: usize,
    pub(crate) made: usize,
    pub(crate) accepted: usize,
    pub(crate) is_closed: bool,
    pub(crate) frames_to: usize,
    pub(crate) frames_from: usize,
    pub(crate) session_expects: u64,
    pub(crate) exchange_expects: u64,
}

impl Counts {
    /// How far a world has come, at this venue.
    pub(crate) fn of<D: Dialect + Drop>(world: &World<D>, venue: VenueId) -> Counts {
        Counts {
            desk_entries: world.desk().history().len(),
            book_entries: world.book().history().len(),
            gate: gate_at(world, venue),
            left: world.desk().left(venue),
            connection: world.connection(venue),
            phase: phase_at(world, venue),
            given: world.given(venue).len(),
            made: world.made(venue).len(),
            accepted: world.accepted(venue).len(),
            is_closed: world.closed_at(venue).is_some(),
            frames_to: world.frames_to(venue).len(),
            frames_from: world.frames_from(venue).len(),
            session_expects: world.session_expects(venue),
            exchange_expects: world.exchange_expects(venue),
        }
    }
}

/// The gate of a venue; one that the desk hasn't got is shut.
fn gate_at<D: Dialect + Drop>(world: &World<D>, venue: VenueId) -> Gate {
    if usize::from(venue.number()) < world.desk().venues() {
        world.desk().gate(venue)
    } else {
        Gate::Shut
    }
}

/// How far the session of a venue has come; one that isn't there is closed.
fn phase_at<D: Dialect + Drop>(world: &World<D>, venue: VenueId) -> Phase {
    match world.phase(venue) {
        Some(phase) => phase,
        None => Phase::Closed,
    }
}
