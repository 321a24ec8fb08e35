//! The limits of a sweep and of a day.

/// The most legs of a sweep.
pub const MAX_LEGS: usize = 32;

/// The most shares of all sweeps together.
pub const MAX_DAY_SHARES: u64 = 1_000_000_000_000_000_000;
