//! What is sent, and to whom.

use link::Rest;

/// What is sent, and to whom.
#[derive(Clone, Copy, Debug)]
pub struct WireLoad {
    /// The port of this machine on which venue 0 listens. The others listen on those behind it.
    pub port: u16,
    /// How many venues there are, and so how many legs a sweep has: 1 to 16.
    pub venues: u8,
    /// How many sweeps are handed in.
    pub sweeps: u64,
    /// How many microseconds pass between two of them at least.
    pub pause: u64,
    /// How a worker waits.
    pub how: Rest,
}
