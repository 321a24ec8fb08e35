//! What was placed under a reference.

use leg::Legs;

/// What was placed under a reference: the sweep's number, the shares of all its legs, and these.
#[derive(Debug, Drop)]
pub struct Placement {
    pub number: u64,
    pub shares: u64,
    pub legs: Legs,
}

/// What a reference was used for so far.
#[derive(Clone, Copy, Debug, PartialEq, Eq)]
pub enum Found {
    /// For nothing: it is free.
    Nothing,
    /// For these very legs, which were placed under this number with these shares.
    Same { number: u64, shares: u64 },
    /// For other legs.
    Others,
}
