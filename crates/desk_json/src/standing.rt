//! How sweeps, legs, executions, venues and the day stand.

ghost use Rattle.std.specs.Prelude.{◌≡◌};
ghost use Rattle.desk_json.specs.Venues.{accepted};

use desk_executions::{Execution, UnbookedCounts};
use desk_news::{DayTotals, Paid, PaidSweep, VenueStatus};
use desk_words::VenueName;
use leg::{LegId, LegState, Terms, Totals};

/// How a venue stands, and what came and went over its connections.
#[derive(Debug, PartialEq, Eq, Drop)]
pub struct VenueRow {
    pub status: VenueStatus,
    /// How many of its legs are settled: the exchange took them, or they were withdrawn.
    pub settled: u64,
    /// How many of these were withdrawn.
    pub withdrawn: u64,
    /// How many of its reports the book didn't take.
    pub unbooked: UnbookedCounts,
    /// How many connections it had in this day.
    pub connections: u64,
    /// How many dials failed.
    pub refused_dials: u64,
    pub messages_sent: u64,
    pub messages_received: u64,
    pub bytes_sent: u64,
    pub bytes_received: u64,
    /// How long its orders waited to be written.
    pub waits: OrderWaits,
    /// How many milliseconds ago the last message came; none where no message came yet.
    pub heard_ms_ago: Option<u64>,
}

impl VenueRow {
    /// How many of its settled legs the exchange took.
    pub fn accepted(&self) -> u64
        ensures { result ≡ accepted self.now }
    {
        self.settled.saturating_sub(self.withdrawn)
    }
}

/// How many orders waited at most so long.
#[derive(Clone, Copy, Debug, PartialEq, Eq)]
pub struct WaitCount {
    /// The time, in microseconds.
    pub most: u64,
    pub count: u64,
}

/// How long the orders of a venue waited from the moment in which their sweep was handed in to their first byte's
/// write; of orders that waited together the oldest is counted.
#[derive(Debug, PartialEq, Eq, Drop)]
pub struct OrderWaits {
    /// By rising times.
    pub within: Vec<WaitCount>,
    /// How many waited, however long.
    pub count: u64,
    /// How many microseconds they waited in all.
    pub micros: u64,
}

/// How a leg stands.
#[derive(Debug, PartialEq, Eq, Drop)]
pub struct LegRow {
    pub id: LegId,
    pub venue: VenueName,
    pub terms: Terms,
    /// What became of its shares.
    pub totals: Totals,
    /// What was paid for it.
    pub paid: Paid,
    pub state: LegState,
}

/// Some of the day's sweeps, with its sums and whether it takes sweeps still.
#[derive(Debug, Drop)]
pub struct SweepsPage {
    /// By rising number.
    pub sweeps: Vec<PaidSweep>,
    pub day: DayTotals,
    pub is_closing: bool,
}

/// Some of the day's executions.
#[derive(Debug, Drop)]
pub struct ExecutionsPage {
    /// By rising number.
    pub executions: Vec<Execution>,
    /// How many the day has until now: the number of the last one.
    pub last: u64,
}

/// The legs of a sweep.
#[derive(Debug, Drop)]
pub struct SweepLegs {
    /// The sweep's number.
    pub sweep: u64,
    /// By their places.
    pub legs: Vec<LegRow>,
}
