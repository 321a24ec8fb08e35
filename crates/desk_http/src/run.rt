//! Which run of the program serves.

/// A run of the program.
#[derive(Debug, Drop)]
pub struct Run {
    /// The run's name, which no other run at this address has: the moment in which it began to serve, in UTC, as
    /// `2026-11-28T09:15:02.123456789Z`. It is told in each answer.
    pub id: String,
    /// What the desk is called; empty where its file doesn't say.
    pub desk: String,
    /// Where it trades, as `UAT`; empty where its file doesn't say.
    pub environment: String,
    /// That moment, in microseconds since 1970-01-01 UTC.
    pub begun: u64,
}
