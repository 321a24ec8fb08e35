//! Settled legs that follow one another.

use leg::LegState;

/// Settled legs that follow one another in number and in ordinal, and were settled alike.
#[derive(Clone, Copy, Debug, PartialEq, Eq)]
pub struct Run {
    /// The number that the first was sent under, from 1.
    pub first_number: u64,
    /// Which of the legs released to its venue the first is, from 1.
    pub first_ordinal: u64,
    /// How many legs these are, from 1.
    pub count: u64,
    /// Taken or withdrawn.
    pub state: LegState,
}
