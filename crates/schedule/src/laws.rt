//! What follows from the definitions of the world: each law is the contract of a function that does nothing.

ghost use Rattle.std.specs.Prelude.{◌≡◌, ◌≢◌, ℕ, List, Some, None};
ghost use Rattle.schedule.specs.declared.event.Event.{Event as AnEvent};
ghost use Rattle.schedule.specs.World.{World, venue_in};
ghost use Rattle.schedule.specs.Happening.{happens, happen};
ghost use Rattle.schedule.specs.OrderHalf.{TheVenueTheorem};
ghost use Rattle.schedule.specs.SweepSums.{TheSums};
ghost use Rattle.schedule.specs.SweepTheorem.{TheSweepTheorem};
ghost use Rattle.schedule.specs.ForGood.{WhatIsSettledStays};
ghost use Rattle.schedule.specs.Growing.{named, IsUntouched, IsWorldLater};

/// An event changes the venue that it names alone, and a release none: the others stay as they were, with their gates
/// and with how many of their legs left the desk.
pub fn an_event_changes_one_venue()
    ensures { (w : World) (event : AnEvent) (u : ℕ) → named event ≢ Some u → IsUntouched u w (happens w event) }
{}

/// An event at a venue that isn't there changes nothing.
pub fn an_event_nowhere_changes_nothing()
    ensures { (w : World) (event : AnEvent) (v : ℕ) → named event ≡ Some v → venue_in w v ≡ None → happens w event ≡ w }
{}

/// Whatever happens, what was written, accepted, reported, handed to the book and released stands, with more behind it.
pub fn what_was_done_stands()
    ensures happens { (w : World) (event : AnEvent) → IsWorldLater w (happens w event) }
    ensures happen { (events : List AnEvent) (w : World) → IsWorldLater w (happen events w) }
{}

/// After every list of events, at each venue: the accepted orders are released legs in their order and none twice,
/// those missing before the last one are exactly the withdrawn ones, nothing is accepted after the session's Logout,
/// what is taken was accepted, and the notes handed to the book are the exchange's first reports, each once and in
/// order.
pub fn what_holds_of_each_venue()
    ensures { TheVenueTheorem }
{}

/// After every list of events the parts of each sweep add up to its legs.
pub fn sums_hold_whatever_happens()
    ensures { TheSums }
{}

/// The sweep theorem: after every list of events what was said of each venue holds, and the parts of each sweep add up
/// to its legs. Each part is the sum of what the share rule makes of each leg, from exactly the notes given on it and
/// from whether it was withdrawn, and the withdrawn part is that of the legs that were withdrawn.
pub fn the_sweep_theorem_holds()
    ensures { TheSweepTheorem }
{}

/// For good: over every further list of events a leg that is withdrawn stays so, and is never accepted, whichever old
/// copy is delivered; a leg that was accepted is never withdrawn; and a leg that is taken stays so.
pub fn what_is_settled_stays_settled()
    ensures { WhatIsSettledStays }
{}
