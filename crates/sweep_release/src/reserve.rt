//! Makes room for the legs of a sweep.

ghost use Rattle.std.specs.Prelude.{OnOk, IsOk};
ghost use Rattle.sweep_release.specs.Kept.{AreSame, HaveSpare};

use crate::venue::Venue;
use std::alloc::AllocError;

/// Makes room for so many more legs at each venue. It is refused only where a venue has less.
pub fn reserve(venues: &mut Vec<Venue>, legs: usize) -> Result<(), AllocError>
    ensures same { AreSame venues.old.items venues.new.items }
    ensures room { OnOk result (HaveSpare legs venues.new.items) }
    ensures there { HaveSpare legs venues.old.items → IsOk result }
{
    for at in 0..venues.len() {
        venues[at].released.reserve(legs)?;
    }
    Ok(())
}
