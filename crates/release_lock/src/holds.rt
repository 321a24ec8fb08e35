//! Which venues are held.

ghost use Rattle.std.specs.Prelude.{◌≡◌, ℕ, true, false, set, slice_get, Some};
ghost use Rattle.release_lock.specs.Held.{is_held};

use leg::VenueId;

/// How many venues there may be.
const VENUES: usize = 16;

/// Whether the desk is halted, and which venues are paused, by number. A venue is held by either.
#[derive(Drop)]
pub(crate) struct Holds {
    pub(crate) halted: bool,
    pub(crate) paused: [bool; VENUES],
}

impl Holds {
    /// No venue is held.
    pub fn none() -> Holds
        ensures { (venue : ℕ) → is_held result.halted result.paused venue ≡ false }
    {
        Holds {
            halted: false,
            paused: [false; VENUES],
        }
    }

    /// Whether a venue is paused.
    pub fn is_paused(&self, venue: VenueId) -> bool
        ensures { slice_get self.now.paused venue ≡ Some result }
    {
        self.paused[usize::from(venue.number())]
    }

    /// Whether a venue is held.
    pub fn is_held(&self, venue: VenueId) -> bool
        ensures { result ≡ is_held self.now.halted self.now.paused venue }
    {
        self.halted || self.is_paused(venue)
    }
}
