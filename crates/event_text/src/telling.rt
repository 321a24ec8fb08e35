//! An event happens, and it is told what it did.

ghost use Rattle.std.specs.Prelude.{◌≡◌, IfOk, OnOk};
ghost use Rattle.schedule.specs.Happening.{happens};
ghost use Rattle.replay.specs.Telling.{told};
ghost use Rattle.event_text.specs.Before.{before_of};
ghost use Rattle.event_text.specs.Step.{IsStepText, settled_now};

use crate::before::Before;
use crate::deeds::print_deeds;
use crate::settled::Settled;
use dialect::Dialect;
use replay::World;
use schedule::Event;
use std::alloc::{AllocError, Global};

/// An event happens in a world, and it is told in words what it did, with the frames that it wrote: what it placed,
/// sent, dropped, settled, withdrew and booked, what an exchange accepted, took or dropped, which connection ended and
/// why, which call was refused; or why nothing came of it. `settled` has which legs were told as settled.
///
/// The only refusal is out of memory, and the world is then of no use.
pub fn tell_event<D: Dialect + Drop>(
    alloc: Global,
    world: &mut World<D>,
    event: Event,
    settled: &mut Settled,
) -> Result<Vec<u8>, AllocError>
    ensures world { OnOk result (world.new ≡ happens world.old event) }
    ensures text { IfOk result (λ text. IsStepText settled.old (before_of world.old event)
        (happens world.old event) (told world.old event) text.items) }
    ensures settled { OnOk result (settled.new
        ≡ settled_now (happens world.old event) settled.old (before_of world.old event).at) }
{
    let before = Before::of(alloc, world, &event)?;
    let told = world.happen(event)?;
    print_deeds(alloc, &before, world, &told, settled)
}
