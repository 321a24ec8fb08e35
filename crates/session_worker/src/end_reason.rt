//! Why a worker ended.

/// Why a worker ended.
#[derive(Clone, Copy, Debug, PartialEq, Eq)]
pub enum EndReason {
    /// A turn left its session closed.
    Closed,
    /// It had rested as often as it may, and the session was abandoned.
    TurnLimit,
    /// It was told to stop, and didn't close in order: the session was abandoned.
    Stopped,
}
