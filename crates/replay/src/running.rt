//! A world runs.

ghost use Rattle.std.specs.Prelude.{◌≡◌, ◌≤◌, length, IfOk};
ghost use Rattle.schedule.specs.Happening.{run};
ghost use Rattle.schedule.specs.SweepTheorem.{HoldsOf};

use crate::world::World;
use dialect::Dialect;
use schedule::Event;
use std::alloc::{AllocError, Global};

/// The world after these events: of a venue for each dialect, 1 to 16, and for each whether its session's Logons say
/// which number it expects next (789). `max_number`, which no message of a session has, is 16 to 999,999,999. It takes
/// the events, since the desk keeps the sweeps. The only refusal is out of memory.
///
/// The sweep theorem holds of the world: what an exchange accepted, what is missing before it, the close and the
/// shares.
#[tactic(auto, using(crate::proofs::Theorem::it_holds))]
pub fn run<D: Dialect + Drop>(
    alloc: Global,
    dialects: Vec<D>,
    next: &[bool],
    max_number: u64,
    events: Vec<Event>,
) -> Result<World<D>, AllocError>
    requires low { 1 ≤ length next.now }
    requires high { length next.now ≤ 16 }
    requires each { length dialects.items ≡ length next.now }
    requires least { 16 ≤ max_number }
    requires most { max_number ≤ 999999999 }
    ensures world { IfOk result (λ world. world ≡ run next.now max_number events.items) }
    ensures theorem { IfOk result HoldsOf }
{
    let mut world = World::new(alloc, dialects, next, max_number)?;
    for event in events {
        world.happen(event)?;
    }
    Ok(world)
}
