//! How far a leg has come.

/// How far a leg has come on its way to its venue.
#[derive(Clone, Copy, Debug, PartialEq, Eq)]
pub enum LegState {
    /// Not sent yet.
    Queued,
    /// Sent, and not yet settled by an answered fence.
    Doubt,
    /// Its venue has it.
    Taken,
    /// Its venue never takes it.
    Withdrawn,
}
