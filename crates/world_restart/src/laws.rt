//! What holds of a day on which the dispatcher is killed and started again: each law is the contract of a function that
//! does nothing.

ghost use Rattle.world_restart.specs.RestartTheorem.{TheSweepTheoremOverRestarts, ADayWithoutACrash};
ghost use Rattle.world_restart.specs.ForGood.{WhatIsSettledStaysOver};
ghost use Rattle.world_restart.specs.NotesAgain.{TheNotesComeAgain};
ghost use Rattle.world_restart.specs.Deeds.{TheDeedsGiveTheLines};

/// The sweep theorem over restarts: after every list of events, and of crashes that lose nothing that the rules of the
/// journal keep, all holds of the world that `the_sweep_theorem_holds` says of it.
pub fn the_sweep_theorem_holds_over_restarts()
    ensures { TheSweepTheoremOverRestarts }
{}

/// A day without a crash is a run of the world: the same events lead to the same world.
pub fn a_day_without_a_crash_is_a_run()
    ensures { ADayWithoutACrash }
{}

/// For good, over restarts too: a leg that is withdrawn stays so, and is never accepted; a leg that was accepted stays
/// so under its ordinal, and is never withdrawn, nor is one that is taken.
pub fn what_is_settled_stays_settled_over_restarts()
    ensures { WhatIsSettledStaysOver }
{}

/// Of any two moments, over restarts too: the notes that a venue has given at the one are those given at the other, or
/// the first of them. So what was booked and then lost comes again, each note once and in order.
pub fn the_notes_come_again()
    ensures { TheNotesComeAgain }
{}

/// At each moment of a day each venue has a journal, whose last line tells how the dispatcher stands there. An event of
/// the dispatcher adds the line that its deed makes of this one, and another event adds none. So the deeds, done again
/// in order, give the lines.
pub fn the_deeds_give_the_lines()
    ensures { TheDeedsGiveTheLines }
{}
