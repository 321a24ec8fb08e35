//! The rings of a run.

ghost use Rattle.std.specs.Prelude.{◌≡◌, length, IfOk};
ghost use Rattle.std.specs.List.{All};
ghost use Rattle.release_lock.specs.Queues.{IsFresh};

use std::alloc::{AllocError, Global};
use std::collections::VecDeque;
use venue_queue::{Drain, Feed, pair};

/// How many legs a venue's ring has room for.
const RING_LEGS: usize = 64;

/// The rings of so many venues, through which nothing went, as `ReleaseLock::new` wants them. The only refusal is want
/// of memory.
pub fn rings(alloc: Global, venues: u8) -> Result<VecDeque<(Feed, Drain)>, AllocError>
    ensures { IfOk result (λ rings. (length rings.items ≡ venues) × All IsFresh rings.items) }
{
    let mut rings = VecDeque::new(alloc);
    for _ in 0..venues {
        rings.push_back(pair(alloc, RING_LEGS)?)?;
    }
    Ok(rings)
}
