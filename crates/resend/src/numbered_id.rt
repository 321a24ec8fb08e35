//! Which leg a number was spent on.

use leg::LegId;

/// Which leg was sent, and the number that it was sent under.
#[derive(Clone, Copy, Debug, PartialEq, Eq)]
pub struct NumberedId {
    /// From 1.
    pub number: u64,
    pub id: LegId,
}
