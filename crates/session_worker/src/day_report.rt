//! What an audit tells of a day.

/// The shares of a day, as the audit found them.
#[derive(Clone, Copy, Debug, PartialEq, Eq)]
pub struct DayReport {
    /// Those of all sweeps released, as the desk says.
    pub placed: u64,
    /// Those that are filled, busted, cancelled or withdrawn, as the book says.
    pub resolved: u64,
    /// Those that are still open, as the book says, up to the greatest number of the type.
    pub still_open: u64,
}
