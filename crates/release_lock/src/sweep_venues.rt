//! Which venues a sweep has legs for.

ghost use Rattle.std.specs.Prelude.{◌≡◌, slice_get};
ghost use Rattle.release_lock.specs.Queues.{is_for, AreMarks};

use leg::{Routed, VenueId};

/// How many venues there may be.
const VENUES: usize = 16;

/// For each number of a venue, from 0 to 15, whether a sweep has a leg for it.
#[derive(Drop)]
pub(crate) struct SweepVenues {
    pub(crate) marks: [bool; VENUES],
}

impl SweepVenues {
    /// The venues of these legs.
    pub fn of(legs: &[Routed]) -> SweepVenues
        ensures { AreMarks result.marks (λ venue. is_for venue legs.now) }
    {
        let mut marks = [false; VENUES];
        for routed in legs {
            marks[usize::from(routed.venue.number())] = true;
        }
        SweepVenues { marks }
    }

    /// Whether the sweep has a leg for a venue.
    pub fn has(&self, venue: VenueId) -> bool
        ensures { slice_get self.now.marks venue ≡ Some result }
    {
        self.marks[usize::from(venue.number())]
    }
}
