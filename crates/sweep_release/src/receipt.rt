//! What a caller gets for a sweep.

/// What a caller gets for a sweep that was released.
#[derive(Clone, Copy, Debug, PartialEq, Eq)]
pub struct Receipt {
    /// The sweep's number, 1 to 999,999,999,999.
    pub number: u64,
    /// The shares of all its legs, 1 to 32,000,000.
    pub shares: u64,
}
