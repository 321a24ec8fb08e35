//! What became of a day.

use desk_executions::Execution;
use desk_floor::TalkFault;
use desk_news::PaidSweep;
use desk_words::VenueName;
use leg::LegId;
use session_worker::DayReport;

/// The legs of a venue that stay in doubt: they were sent, and its exchange may have them or not.
#[derive(Debug, Drop)]
pub struct VenueDoubt {
    pub venue: VenueName,
    /// In the order in which they were released; there is one at least.
    pub legs: Vec<LegId>,
}

/// What became of a day.
#[derive(Debug, Drop)]
pub struct DeskDay {
    /// The sweeps, in the order of their numbers, with what was paid for each.
    pub sweeps: Vec<PaidSweep>,
    /// The venues with legs that stay in doubt, in the order of the file.
    pub doubts: Vec<VenueDoubt>,
    /// What exchanges said and the book didn't take, by rising numbers.
    pub unbooked: Vec<Execution>,
    /// Whether a session was given up that couldn't be closed in order.
    pub is_given_up: bool,
    /// What the audit tells.
    pub report: DayReport,
    /// Why no line was taken any more before the input ended, if that is so.
    pub broken_off: Option<TalkFault>,
}
