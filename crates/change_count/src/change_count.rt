//! A count of changes.

use std::sync::Wait;
use std::sync::atomic::{AtomicBool, AtomicU64, Ordering};
use std::time::Duration;

/// The part of a count by which the system tells whether a thread has to sleep.
const LOW_BITS: u64 = 0xFFFF_FFFF;

/// A count of changes. Any number of threads wait for the next one, and any number tell one. A change is never missed:
/// who reads the count, looks at what may have changed, and then waits for more than was read, hears of each change
/// behind that look.
#[derive(Drop)]
pub struct ChangeCount {
    changes: AtomicU64,
    // Whether a thread may sleep that no change was told since.
    is_awaited: AtomicBool,
}

impl ChangeCount {
    /// Nothing has changed.
    pub fn new() -> ChangeCount {
        ChangeCount {
            changes: AtomicU64::new(0),
            is_awaited: AtomicBool::new(false),
        }
    }

    /// How many changes were told.
    pub fn count(&self) -> u64 {
        self.changes.load(Ordering::SeqCst)
    }

    /// Something has changed: each wait ends. It doesn't wait, and asks the system only where a thread may sleep.
    pub fn tell(&self) {
        self.changes.fetch_add(1, Ordering::SeqCst);
        if self.is_awaited.load(Ordering::SeqCst) && self.is_awaited.swap(false, Ordering::SeqCst) {
            self.changes.wake_all();
        }
    }

    /// Waits until more changes were told than these, so long at most. It may end sooner.
    pub fn wait(&self, rt: &impl Wait, seen: u64, most: Duration) {
        self.is_awaited.store(true, Ordering::SeqCst);
        if self.count() == seen {
            // Where a change is told meanwhile the count differs, and the system lets no thread sleep.
            self.changes
                .park_timeout(rt, (seen & LOW_BITS) as u32, most);
        }
    }
}
