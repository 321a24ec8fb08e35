//! How large a day is.

/// How large a day is, and what goes wrong in it.
#[derive(Clone, Copy, Debug, PartialEq, Eq)]
pub struct LivePlan {
    /// How many venues there are, each with an exchange and a worker: 1 to 16.
    pub venues: u8,
    /// How many callers release sweeps, each in a thread of its own: 1 to 64.
    pub callers: u8,
    /// How many sweeps each caller releases: 1 to 1,000,000.
    pub sweeps: u64,
    /// The message behind which exchange 0 cuts its connection, counted from 1 over all that it reads: up to 1,000,000.
    /// It does so once, and at 0 never.
    pub cut: u64,
    /// How many turns a worker takes at most in which there is nothing to do, and how many times a caller tries a
    /// sweep: 1 to 1,000,000.
    pub turns: u64,
    /// Whether the gates are shut as soon as the callers have ended; else once no share is open.
    pub cuts_short: bool,
}
