//! A new ring.

ghost use Rattle.std.specs.Prelude.{◌≡◌, ◌<◌, ◌≤◌, [], IfOk};

use crate::rule::{Ends, Ring};
use crate::{Drain, Feed};
use std::alloc::{AllocError, Global};
use std::sync::Arc;

/// An empty ring with room for 1 to 64 legs, as its two ends.
pub fn pair(alloc: Global, capacity: usize) -> Result<(Feed, Drain), AllocError>
    requires { (0 < capacity) × (capacity ≤ 64) }
    ensures ring { IfOk result
        (λ ends. (ends.0.table ≡ ends.1.table) × (ends.0.room ≡ capacity) × (ends.1.room ≡ capacity)) }
    ensures legs { IfOk result (λ ends. (ends.0.legs ≡ []) × (ends.1.legs ≡ [])) }
{
    let (ring, mut feeding) = Ring::ruled(alloc, capacity)?;
    let ring = Arc::new(alloc, ring)?;
    let same_ring = Arc::try_clone(&ring)?;
    let draining = ring.another::<Ends>(&mut feeding);
    let feed = Feed {
        ring,
        pass: feeding,
        count: 0,
    };
    let drain = Drain {
        ring: same_ring,
        pass: draining,
        count: 0,
    };
    Ok((feed, drain))
}
