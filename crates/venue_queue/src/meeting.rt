//! What two ends of one ring say, once they are in one thread again.

ghost use Rattle.std.specs.Prelude.{◌≡◌, ◌++◌, length, min, IfOk};
ghost use mathlib.Core.List.{IsPrefix};

use crate::rule::{Ends, Pops};
use crate::{Drain, Feed};
use leg::PlacedLeg;
use std::alloc::{AllocError, Global};
use std::sync::Wait;

/// What went through a ring.
#[derive(Drop)]
pub struct Met {
    /// How many legs were pushed.
    pub pushed: u64,
    /// How many legs were popped before the ends met.
    pub popped: u64,
    /// The legs that were left, in order.
    pub left: Vec<PlacedLeg>,
}

/// The two counts, and the legs that were left. Where memory is refused both ends are dropped, and the legs left with
/// them.
pub fn meet(rt: &impl Wait, alloc: Global, feed: Feed, drain: Drain) -> Result<Met, AllocError>
    requires { feed.table ≡ drain.table }
    ensures left { IfOk result (λ met. feed.legs ≡ drain.legs ++ met.left.items) }
    ensures counts { IfOk result (λ met. (met.pushed ≡ min (length feed.legs) 18446744073709551615)
        × (met.popped ≡ min (length drain.legs) 18446744073709551615)) }
{
    let Feed {
        ring,
        pass: mut both,
        count: pushed,
    } = feed;
    let Drain {
        ring: _,
        pass: draining,
        count: popped,
    } = drain;
    ring.absorb::<Ends>(&mut both, draining);
    let mut left = Vec::new(alloc);
    for _ in rt.forever() {
        left.reserve(1)?;
        let Some(leg) = ring.pop_as::<Pops, _>(rt, &mut both) else {
            break;
        };
        left.push_reserved(leg);
    }
    Ok(Met {
        pushed,
        popped,
        left,
    })
}

/// The legs popped are the first of the legs pushed. It takes no memory and waits for nobody, and the legs that are
/// left in the ring are dropped with it.
pub fn agree(feed: Feed, drain: Drain)
    requires { feed.table ≡ drain.table }
    ensures { IsPrefix drain.legs feed.legs }
{
    let Feed {
        ring,
        pass: mut both,
        count: _,
    } = feed;
    let Drain {
        ring: _,
        pass: draining,
        count: _,
    } = drain;
    ring.absorb::<Ends>(&mut both, draining);
    ring.learn_as::<Pops>(&mut both);
}
