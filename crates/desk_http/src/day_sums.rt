//! What a day came to so far.

use leg::Totals;

/// What a day came to so far.
#[derive(Clone, Copy, Debug, PartialEq, Eq)]
pub struct DaySums {
    /// How many sweeps were placed.
    pub sweeps: u64,
    /// The shares of their legs.
    pub placed: u64,
    /// What became of them.
    pub parts: Totals,
}
