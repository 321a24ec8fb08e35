//! The world before anything happens.

ghost use Rattle.std.specs.Prelude.{◌≡◌, ◌≤◌, length, map, IfOk};
ghost use Rattle.schedule.specs.World.{new_venue, opening};

use super::World;
use dialect::Dialect;
use share_ledger::Book;
use std::alloc::{AllocError, Global};
use sweep_release::Desk;
use venue_replay::Venue;

/// The venues of these dialects, in order, each with whether its session's Logons say which number it expects next
/// (789).
fn new_venues<D: Dialect + Drop>(
    alloc: Global,
    dialects: Vec<D>,
    next: &[bool],
    max_number: u64,
) -> Result<Vec<Venue<D>>, AllocError>
    requires each { length dialects.items ≡ length next.now }
    requires least { 16 ≤ max_number }
    requires most { max_number ≤ 999999999 }
    ensures { IfOk result (λ venues. venues.items ≡ map (new_venue max_number) next.now) }
{
    let mut venues = Vec::with_capacity(alloc, next.len())?;
    for dialect in dialects {
        let next = next[venues.len()];
        venues.push_reserved(Venue::new(alloc, dialect, next, max_number));
    }
    Ok(venues)
}

impl<D: Dialect + Drop> World<D> {
    /// A new world of a venue for each dialect, 1 to 16, and for each whether its session's Logons say which number it
    /// expects next (789). `max_number`, which no message of a session has, is 16 to 999,999,999. The only refusal is
    /// out of memory.
    pub fn new(
        alloc: Global,
        dialects: Vec<D>,
        next: &[bool],
        max_number: u64,
    ) -> Result<World<D>, AllocError>
        requires low { 1 ≤ length next.now }
        requires high { length next.now ≤ 16 }
        requires each { length dialects.items ≡ length next.now }
        requires least { 16 ≤ max_number }
        requires most { max_number ≤ 999999999 }
        ensures { IfOk result (λ world. world ≡ opening next.now max_number) }
    {
        let count = next.len() as u8;
        let Ok(desk) = Desk::new(alloc, count) else {
            return Err(AllocError);
        };
        let Ok(book) = Book::new(alloc, count) else {
            return Err(AllocError);
        };
        let venues = new_venues(alloc, dialects, next, max_number)?;
        Ok(World { desk, book, venues })
    }
}
