//! How long orders wait to be written.

use std::sync::atomic::{AtomicU64, Ordering};
use std::time::Clock;

/// Up to how many microseconds the times of each count go, but the last count, which has those behind.
pub const BOUNDS: [u64; 11] = [
    50, 100, 250, 500, 1_000, 2_500, 5_000, 10_000, 25_000, 100_000, 1_000_000,
];

/// How long the orders of a venue wait from the moment in which their sweep is handed in to their first byte's write,
/// in numbers that threads count and others read. Of orders that wait together the oldest is counted. An order that is
/// withdrawn before it is written may lend its moment to the next.
#[derive(Drop)]
pub struct OrderTimes {
    /// Since when one waits, as one more than the moment in microseconds; 0 where none does.
    waiting: AtomicU64,
    counts: [AtomicU64; 12],
    micros: AtomicU64,
}

/// The moment, in microseconds of a clock that never goes back; 0 where it can't be read.
pub fn moment(clock: &impl Clock) -> u64 {
    match clock.monotonic() {
        Ok(passed) => u64::try_from(passed.as_micros()).unwrap_or(u64::MAX),
        Err(_) => 0,
    }
}

/// The place of the count of such a time.
fn place_of(micros: u64) -> usize {
    BOUNDS
        .iter()
        .position(|bound| micros <= *bound)
        .unwrap_or(BOUNDS.len())
}

impl OrderTimes {
    /// No order was handed in yet.
    pub fn new() -> OrderTimes {
        OrderTimes {
            waiting: AtomicU64::new(0),
            counts: [
                AtomicU64::new(0),
                AtomicU64::new(0),
                AtomicU64::new(0),
                AtomicU64::new(0),
                AtomicU64::new(0),
                AtomicU64::new(0),
                AtomicU64::new(0),
                AtomicU64::new(0),
                AtomicU64::new(0),
                AtomicU64::new(0),
                AtomicU64::new(0),
                AtomicU64::new(0),
            ],
            micros: AtomicU64::new(0),
        }
    }

    /// An order is handed in at this moment.
    pub fn begin(&self, moment: u64) {
        let since = moment.saturating_add(1);
        let _ = self
            .waiting
            .compare_exchange(0, since, Ordering::SeqCst, Ordering::SeqCst);
    }

    /// The order that was handed in at this moment is refused.
    pub fn refuse(&self, moment: u64) {
        let since = moment.saturating_add(1);
        let _ = self
            .waiting
            .compare_exchange(since, 0, Ordering::SeqCst, Ordering::SeqCst);
    }

    /// Whether an order waits.
    pub(crate) fn is_waiting(&self) -> bool {
        self.waiting.load(Ordering::SeqCst) > 0
    }

    /// An order is written at this moment.
    pub(crate) fn written(&self, moment: u64) {
        let Some(since) = self.waiting.swap(0, Ordering::SeqCst).checked_sub(1) else {
            return;
        };
        let micros = moment.saturating_sub(since);
        self.micros.fetch_add(micros, Ordering::SeqCst);
        if let Some(count) = self.counts.get(place_of(micros)) {
            count.fetch_add(1, Ordering::SeqCst);
        }
    }

    /// How many orders waited so long: up to the bound at this place, and longer than the one before; at place 11 those
    /// that waited longer than any bound, and none behind.
    pub fn count(&self, place: usize) -> u64 {
        match self.counts.get(place) {
            Some(count) => count.load(Ordering::SeqCst),
            None => 0,
        }
    }

    /// How many microseconds they waited in all.
    pub fn micros(&self) -> u64 {
        self.micros.load(Ordering::SeqCst)
    }
}
