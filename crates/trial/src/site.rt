//! What a floor is made of.

ghost use Rattle.std.specs.Prelude.{◌≡◌, ◌≤◌, length};
ghost use Rattle.std.specs.List.{All};
ghost use Rattle.release_lock.specs.Queues.{IsFresh};

use crate::TrialFault;
use exec_collector::BlankBook;
use release_lock::{BlankDesk, rings};
use std::alloc::Global;
use std::collections::VecDeque;
use venue_queue::{Drain, Feed};

/// How many venues a lock has at most.
const MAX_VENUES: u8 = 16;

/// What a floor of so many venues is made of: the parts of the callers' seats, a book that has no
/// name yet, and the rings, through which nothing went.
#[derive(Drop)]
pub struct Site {
    pub venues: u8,
    pub callers: BlankDesk,
    pub workers: BlankBook,
    pub rings: VecDeque<(Feed, Drain)>,
    ghost least: { 1 ≤ venues },
    ghost most: { venues ≤ 16 },
    ghost callers_parts: { callers.parts ≡ 1024 },
    ghost workers_parts: { workers.parts ≡ venues },
    ghost all: { length rings.items ≡ venues },
    ghost fresh: { All IsFresh rings.items },
}

impl Site {
    /// A site of so many venues, of which there are 1 to 16.
    pub fn new(alloc: Global, venues: u8) -> Result<Site, TrialFault> {
        if venues == 0 || venues > MAX_VENUES {
            return Err(TrialFault::Missing);
        }
        let rings = rings(alloc, venues)?;
        Ok(Site {
            venues,
            callers: BlankDesk::new(1024),
            workers: BlankBook::new(alloc, venues)?,
            rings,
        })
    }
}
