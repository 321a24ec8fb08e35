//! The parts of a script.

use dialect::AnyDialect;
use schedule::Event;

/// What a world is made with and what happens in it, by value: 1 to 16 venues and as many dialects.
#[derive(Debug, Drop)]
pub struct Parts {
    /// The number that no message of a session has, 16 to 999,999,999.
    pub max_number: u64,
    /// The dialect of each venue.
    pub dialects: Vec<AnyDialect>,
    /// Of each venue, whether its Logons say which number is expected next (789).
    pub next: Vec<bool>,
    /// The events, in order.
    pub events: Vec<Event>,
}
