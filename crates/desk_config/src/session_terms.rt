//! How a venue's session is held.

use crate::within::Within;

/// The heartbeat interval, in seconds: at most an hour.
pub type Heartbeat = Within<1, 3_600>;

/// The number that no message of a session reaches.
pub type NumberLimit = Within<16, 999_999_999>;

/// What a venue's session is configured with.
#[derive(Clone, Copy, Debug, PartialEq, Eq)]
pub struct SessionTerms {
    pub heartbeat: Heartbeat,
    /// Whether each Logon says which number it expects next (789).
    pub next_expected: bool,
    /// Whether the venue is dialled again after it logged out first.
    pub reopen: bool,
    pub max_number: NumberLimit,
}
