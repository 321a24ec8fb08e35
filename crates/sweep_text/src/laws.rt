//! What is written is read back: the law is the contract of a function that does nothing.

ghost use Rattle.std.specs.Prelude.{ℕ, List, Option};
ghost use Rattle.leg.specs.declared.sweep.Routed.{Routed};
ghost use Rattle.sweep_text.specs.Written.{ReadsBack};

/// The line that is written of up to a thousand legs, each for a venue that has a name of its own, is read as the sweep
/// of those very legs under their reference.
pub fn written_sweeps_read_back()
    ensures { (names : List (List ℕ)) (reference : Option (List ℕ)) (legs : List Routed)
        → ReadsBack names reference legs }
{}
