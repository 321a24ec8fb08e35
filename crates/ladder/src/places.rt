//! Where things stand in a picture, in pixels from its upper left corner.

ghost use Rattle.std.specs.Prelude.{◌≡◌};
ghost use Rattle.ladder.specs.Places.{exchange_x, session_x, y_of};

/// How many slots and venues are told apart.
const MOST: u64 = 1_000_000_000;

/// The middle of a slot.
pub(crate) fn y_of(slot: u64) -> u64
    ensures { result ≡ y_of slot }
{
    90 + 20 * slot.min(MOST)
}

/// The life line of the session of a venue.
pub(crate) fn session_x(venue: u64) -> u64
    ensures { result ≡ session_x venue }
{
    700 + 880 * venue.min(MOST)
}

/// The life line of the exchange of a venue.
pub(crate) fn exchange_x(venue: u64) -> u64
    ensures { result ≡ exchange_x venue }
{
    900 + 880 * venue.min(MOST)
}
