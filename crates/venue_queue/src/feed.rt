//! The end of a ring that pushes.

ghost use Rattle.std.specs.Prelude.{◌≡◌, length, min, MatchResult};
ghost use Rattle.crossbeam_queue.specs.Fifo.{Held};
ghost use Rattle.venue_queue.specs.Rule.{EndsWith};
ghost use Rattle.venue_queue.specs.Port.{with_leg};

use crate::rule::{Pushes, Ring, RingPass};
use leg::PlacedLeg;
use std::marker::Model;
use std::sync::{Arc, Wait};

/// The end of a ring that pushes. Contracts see which ring it is of, the ring's room, and the legs pushed.
#[derive(Drop)]
pub struct Feed {
    pub(crate) ring: Arc<Ring>,
    pub(crate) pass: RingPass,
    pub(crate) count: u64,
}

impl Model for Feed {
    ghost use Rattle.std.specs.Prelude.{◌≡◌, true, false, [], length, min};
    ghost use Rattle.std.specs.Arc.{arc_value};
    ghost use Rattle.crossbeam_queue.specs.Passes.{view as known, IsPassOf, ruled_capacity};
    ghost use Rattle.venue_queue.specs.Rule.{hand};
    ghost use Rattle.venue_queue.specs.Port.{Port};

    ghost Value = { Port };

    ghost view = { λ f. record
        { table = f.pass.table_id; room = ruled_capacity (arc_value f.ring); legs = (known f.pass).pushed } };

    ghost invariant = { λ f. IsPassOf (arc_value f.ring) f.pass
        × (known f.pass ≡ hand true false (known f.pass).pushed [])
        × (f.count ≡ min (length (known f.pass).pushed) 18446744073709551615) };
}

impl Feed {
    /// Pushes a leg behind the others. The leg comes back only where the ring was full at some moment of the call. It
    /// may wait for another thread that is in the way.
    pub fn push(&mut self, rt: &impl Wait, leg: PlacedLeg) -> Result<(), PlacedLeg>
        ensures { MatchResult result (λ _. self.new ≡ with_leg self.old leg)
            (λ back. (back ≡ leg) × (self.new ≡ self.old) × Held self.old.room (EndsWith self.old.legs)) }
    {
        self.ring.push_as::<Pushes, _>(rt, &mut self.pass, leg)?;
        self.count = self.count.saturating_add(1);
        Ok(())
    }

    /// How many legs were pushed, up to the greatest number of its type.
    pub fn pushed(&self) -> u64
        ensures { result ≡ min (length self.now.legs) 18446744073709551615 }
    {
        self.count
    }
}
