//! The moment of every message.

ghost use Rattle.std.specs.Prelude.{◌≡◌};
ghost use Rattle.venue_replay.specs.Network.{moment};

use fix_tags::Stamp;

/// The stamp of every message, 20240102-14:30:00.000: a world has no clock.
pub fn stamp() -> Stamp
    ensures { result ≡ moment }
{
    Stamp::new(2024, 1, 2, 14, 30, 0, 0).unwrap()
}
