//! What callers and workers did, and how long they took.

use std::fmt;
use std::time::Duration;

/// Nanoseconds of a second.
const SECOND: u128 = 1_000_000_000;

/// What callers and workers did, and how long they took.
#[derive(Clone, Copy, Debug)]
pub struct Outcome {
    /// The sweeps that the callers released.
    pub sweeps: u64,
    /// The legs that the workers popped.
    pub legs: u64,
    pub took: Duration,
}

/// A sum, up to the greatest number.
fn sum(counts: &[u64]) -> u64 {
    let mut sum: u64 = 0;
    for count in counts {
        sum = sum.saturating_add(*count);
    }
    sum
}

impl Outcome {
    /// The outcome of what each caller released and each worker popped.
    pub fn of(released: &[u64], popped: &[u64], took: Duration) -> Outcome {
        Outcome {
            sweeps: sum(released),
            legs: sum(popped),
            took,
        }
    }

    /// How many sweeps were released in a second.
    pub fn rate(&self) -> u128 {
        match self.took.as_nanos() {
            0 => 0,
            nanos => u128::from(self.sweeps) * SECOND / nanos,
        }
    }
}

impl fmt::Display for Outcome {
    fn fmt<W: fmt::Write>(&self, f: &mut fmt::Formatter<W>) -> fmt::Result {
        let sweeps = self.sweeps;
        let legs = self.legs;
        write!(f, "{sweeps} sweeps released, {legs} legs popped")
    }
}
