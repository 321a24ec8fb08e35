//! What became of a day.

use desk_news::PaidSweep;
use session_worker::DayReport;

/// A venue at the end of a day.
#[derive(Clone, Copy, Debug, PartialEq, Eq)]
pub struct LiveVenue {
    /// Its number, from 0.
    pub number: u64,
    /// How many connections its session had: each one behind the first means that one was lost.
    pub connections: u64,
    /// How many of its legs stay in doubt: they were sent, and the exchange may have them or not.
    pub doubts: u64,
    /// How many of its legs were lost: they were sent, a connection broke, and the exchange never takes them.
    pub lost: u64,
}

/// What became of a day.
#[derive(Debug, Drop)]
pub struct LiveDay {
    /// The sweeps, in the order of their numbers.
    pub sweeps: Vec<PaidSweep>,
    /// The venues, in the order of their numbers.
    pub venues: Vec<LiveVenue>,
    /// How many sweeps were given up, since each try of them was refused.
    pub unplaced: u64,
    /// Whether some exchange answered a Logon.
    pub is_answered: bool,
    /// What the audit tells.
    pub report: DayReport,
}
