//! How the day of one worker goes.

use session_worker::Pace;
use trial::Order;

/// How the day of one worker goes.
#[derive(Clone, Copy, Debug)]
pub struct Course<'c> {
    /// The sweep that is placed before the worker's first turn; with no orders there is none.
    pub early: &'c [Order],
    /// The sweeps that are released while the worker takes its turns.
    pub sweeps: &'c [&'c [Order]],
    /// Beside which calls of the link they are released.
    pub beside: Beside,
    /// How many such calls pass between two of them, and before the gate is shut.
    pub pause: u64,
    pub shuts: Shuts,
    /// The number that none of the session's messages has.
    pub max_number: u64,
    pub pace: Pace,
    pub turn_limit: u64,
}

/// Beside which calls of the link the caller makes its own.
#[derive(Clone, Copy, Debug, PartialEq, Eq)]
pub enum Beside {
    Reads,
    /// In the middle of a turn, between two legs.
    Writes,
}

/// When the caller shuts the gate.
#[derive(Clone, Copy, Debug, PartialEq, Eq)]
pub enum Shuts {
    /// Together with the release of the last sweep.
    WithLastSweep,
    /// Behind the last sweep.
    AfterSweeps,
    /// When a connection is given up.
    AfterConnection,
    Never,
}
