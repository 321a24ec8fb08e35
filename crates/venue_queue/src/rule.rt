//! The rule of a ring: the legs popped, followed by the legs in the ring, are the legs pushed.

use crossbeam_queue::protocol::{Join, Lesson, Outcome, Protocol, Split};
use crossbeam_queue::{Pass, RuledArrayQueue};
use leg::PlacedLeg;
use std::collections::LinkedList;

/// What a pass may do, and the legs that it has pushed and popped. It is a view of the rule alone: no value of it is
/// made.
pub struct Hand {
    /// Whether it may push.
    pub feeds: bool,
    /// Whether it may pop.
    pub drains: bool,
    /// The legs that it pushed, in order.
    pub pushed: LinkedList<PlacedLeg>,
    /// The legs that it popped, in order.
    pub popped: LinkedList<PlacedLeg>,
}

/// The rule. The first pass may push and pop.
pub struct InOrder;

impl Protocol<PlacedLeg, Hand> for InOrder {
    ghost use Rattle.std.specs.Prelude.{true, []};
    ghost use Rattle.venue_queue.specs.Rule.{hand, Kept};

    ghost holds = { Kept };

    ghost first = { hand true true [] [] };
}

/// One pass becomes two, one that pushes and one that pops; and they become one again.
pub struct Ends;

impl Split<Hand> for Ends {
    ghost use Rattle.std.specs.Prelude.{true, false, []};
    ghost use Rattle.venue_queue.specs.Rule.{hand};

    ghost left = { λ v. hand true false v.pushed [] };

    ghost right = { λ v. hand false true [] v.popped };
}

impl Join<Hand> for Ends {
    ghost use Rattle.std.specs.Prelude.{true, false, []};
    ghost use Rattle.venue_queue.specs.Rule.{hand};

    ghost both = { λ v w. hand true true v.pushed w.popped };

    ghost spent = { hand false false [] [] };
}

/// A leg is pushed.
pub struct Pushes;

impl Outcome<PlacedLeg, Hand> for Pushes {
    ghost use Rattle.std.specs.Prelude.{◌≡◌};
    ghost use Rattle.venue_queue.specs.Rule.{with_pushed};

    ghost then = { λ v leg w. w ≡ with_pushed leg v };
}

/// What the ring holds is the end of what was pushed.
impl Lesson<PlacedLeg, Hand> for Pushes {
    ghost use Rattle.venue_queue.specs.Rule.{EndsWith};

    ghost fact = { λ v legs. EndsWith v.pushed legs };
}

/// A leg is popped.
pub struct Pops;

impl Outcome<PlacedLeg, Hand> for Pops {
    ghost use Rattle.std.specs.Prelude.{◌≡◌};
    ghost use Rattle.venue_queue.specs.Rule.{with_popped};

    ghost then = { λ v leg w. w ≡ with_popped leg v };
}

/// Where one pass has both ends, what was pushed is what was popped and then what the ring holds.
impl Lesson<PlacedLeg, Hand> for Pops {
    ghost use Rattle.venue_queue.specs.Rule.{BothEnds};

    ghost fact = { BothEnds };
}

/// The ring.
pub(crate) type Ring = RuledArrayQueue<PlacedLeg, Hand, InOrder>;

/// What a thread holds to push or to pop.
pub(crate) type RingPass = Pass<PlacedLeg, Hand>;
