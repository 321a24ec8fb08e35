//! The shares of a whole sweep.

/// The shares of a sweep's legs, each part the sum of that part of its legs.
#[derive(Clone, Copy, Debug, PartialEq, Eq)]
pub struct Totals {
    pub filled: u64,
    pub busted: u64,
    pub cancelled: u64,
    pub withdrawn: u64,
    pub still_open: u64,
}
