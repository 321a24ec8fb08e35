//! Puts the legs of a sweep behind those of their venues.

ghost use Rattle.std.specs.Prelude.{◌<◌, ◌≤◌, length};
ghost use Rattle.std.specs.List.{All};
ghost use Rattle.sweep_release.specs.Kept.{HaveRoom, IsEnqueued};

use crate::venue::Venue;
use leg::{Leg, LegId, MAX_SWEEP, Routed};

/// The legs of a sweep join those released to their venues, which have room for them.
pub fn enqueue(venues: &mut Vec<Venue>, number: u64, legs: &[Routed])
    requires low { 1 ≤ number }
    requires high { number ≤ MAX_SWEEP }
    requires short { length legs.now ≤ 32 }
    requires known { All (λ routed. routed.venue < length venues.old.items) legs.now }
    requires room { HaveRoom legs.now venues.old.items }
    ensures { IsEnqueued number legs.now venues.old.items venues.new.items }
{
    let mut place = 0u8;
    for routed in legs {
        place += 1;
        let leg = Leg {
            id: LegId::new(number, place),
            terms: routed.terms.clone().unwrap(),
        };
        let at = &mut venues[usize::from(routed.venue.number())];
        at.released.push_reserved(leg);
    }
}
