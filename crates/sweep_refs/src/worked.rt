//! Worked cases.

ghost use Rattle.sweep_refs.specs.Worked.{WorkedCases};

/// Which of three placements is found under a reference: the contract of a function that does nothing.
pub fn references_are_found()
    ensures { WorkedCases }
{}
