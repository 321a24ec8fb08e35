//! How long a worker waits.

/// When a worker does something by itself.
#[derive(Clone, Copy, Debug, PartialEq, Eq)]
pub enum Pace {
    /// By its turns, as tests want it: each day comes out the same. No time passes between two dials.
    Turns {
        /// So many turns without a write, and a Heartbeat is written.
        quiet_turns: u64,
        /// So many turns without a read, and a fence is written; the second time the connection ends.
        silent_turns: u64,
    },
    /// By the heartbeat interval of its session, on a clock that doesn't go back: a Heartbeat after an interval without
    /// a write, a fence after 1.2 intervals without a message, and the end of the connection after as long again.
    Time,
}
