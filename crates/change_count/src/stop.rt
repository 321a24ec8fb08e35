//! Workers are told to stop.

use std::sync::atomic::{AtomicBool, Ordering};

/// Tells workers to stop, from any thread. Told once, a worker shuts its gate and closes its session in order. Told
/// twice, or once its patience is over, it gives its session up, and legs in doubt stay so. A worker that rests hears
/// of it when its bell is rung, or thirty seconds later.
#[derive(Drop)]
pub struct Stop {
    closes: AtomicBool,
    abandons: AtomicBool,
}

impl Stop {
    /// Nobody is told to stop.
    pub fn new() -> Stop {
        Stop {
            closes: AtomicBool::new(false),
            abandons: AtomicBool::new(false),
        }
    }

    /// Tells the workers to stop. The second time they give up their sessions.
    pub fn tell(&self) {
        if self.closes.swap(true, Ordering::SeqCst) {
            self.abandons.store(true, Ordering::SeqCst);
        }
    }

    /// Whether the workers were told.
    pub fn is_told(&self) -> bool {
        self.closes.load(Ordering::SeqCst)
    }

    /// Whether they were told twice.
    pub fn is_told_twice(&self) -> bool {
        self.abandons.load(Ordering::SeqCst)
    }
}
