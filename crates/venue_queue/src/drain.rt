//! The end of a ring that pops.

ghost use Rattle.std.specs.Prelude.{◌≡◌, ◌<◌, length, min, IfSome, MatchOption};
ghost use Rattle.venue_queue.specs.Port.{with_leg};

use crate::rule::{Pops, Ring, RingPass};
use leg::PlacedLeg;
use std::marker::Model;
use std::sync::{Arc, Wait};

/// The end of a ring that pops. Contracts see which ring it is of, the ring's room, and the legs popped.
#[derive(Drop)]
pub struct Drain {
    pub(crate) ring: Arc<Ring>,
    pub(crate) pass: RingPass,
    pub(crate) count: u64,
}

impl Model for Drain {
    ghost use Rattle.std.specs.Prelude.{◌≡◌, true, false, [], length, min};
    ghost use Rattle.std.specs.Arc.{arc_value};
    ghost use Rattle.crossbeam_queue.specs.Passes.{view as known, IsPassOf, ruled_capacity};
    ghost use Rattle.venue_queue.specs.Rule.{hand};
    ghost use Rattle.venue_queue.specs.Port.{Port};

    ghost Value = { Port };

    ghost view = { λ d. record
        { table = d.pass.table_id; room = ruled_capacity (arc_value d.ring); legs = (known d.pass).popped } };

    ghost invariant = { λ d. IsPassOf (arc_value d.ring) d.pass
        × (known d.pass ≡ hand false true [] (known d.pass).popped)
        × (d.count ≡ min (length (known d.pass).popped) 18446744073709551615) };
}

impl Drain {
    /// The next leg. `None` only where the ring was empty at some moment of the call. It may wait for another thread
    /// that is in the way.
    pub fn pop(&mut self, rt: &impl Wait) -> Option<PlacedLeg>
        ensures { MatchOption result (self.new ≡ self.old) (λ leg. self.new ≡ with_leg self.old leg) }
    {
        let leg = self.ring.pop_as::<Pops, _>(rt, &mut self.pass)?;
        self.count = self.count.saturating_add(1);
        Some(leg)
    }

    /// The next leg, while fewer than `count` were popped in all; else `None`, and the ring isn't touched.
    pub fn pop_to(&mut self, rt: &impl Wait, count: u64) -> Option<PlacedLeg>
        ensures leg { MatchOption result (self.new ≡ self.old) (λ leg. self.new ≡ with_leg self.old leg) }
        ensures bound { IfSome result (λ _. length self.old.legs < count) }
    {
        if self.count < count {
            self.pop(rt)
        } else {
            None
        }
    }

    /// How many legs were popped, up to the greatest number of its type.
    pub fn popped(&self) -> u64
        ensures { result ≡ min (length self.now.legs) 18446744073709551615 }
    {
        self.count
    }
}
