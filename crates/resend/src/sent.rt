//! A leg in doubt.

use leg::LegId;

/// A leg that was sent and isn't settled yet.
#[derive(Clone, Copy, Debug, PartialEq, Eq)]
pub struct Sent {
    /// The number that it was sent under, from 1.
    pub number: u64,
    /// Which of the legs released to its venue it is, from 1.
    pub ordinal: u64,
    pub id: LegId,
}
