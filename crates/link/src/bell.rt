//! What ends the rest of another thread.

use mio::{Registry, Token, Waker};
use std::io;
use std::sync::atomic::{AtomicBool, Ordering};

/// The token of a bell. A source that is watched has another.
const BELL: Token = Token(0);

/// What other threads ring to end the rest of one that waits with a `Poller`. A ring is never lost: it ends the rest
/// that is under way, or else the next one. Several rings before a rest end just that one.
#[derive(Drop)]
pub struct Bell {
    waker: Waker,
    is_rung: AtomicBool,
    is_resting: AtomicBool,
}

impl Bell {
    /// The bell of a poll, which nobody has rung.
    pub(crate) fn new(registry: &Registry) -> io::Result<Bell> {
        Ok(Bell {
            waker: Waker::new(registry, BELL)?,
            is_rung: AtomicBool::new(false),
            is_resting: AtomicBool::new(false),
        })
    }

    /// Ends the rest that is under way, or the next one. It doesn't wait, and asks the system only where someone rests.
    pub fn ring(&self) {
        self.is_rung.store(true, Ordering::SeqCst);
        if self.is_resting.load(Ordering::SeqCst) {
            // It fails only where the system's counter is full, and then the rest has been ended.
            let _ = self.waker.wake();
        }
    }

    /// A rest begins. From now on a ring asks the system to end it.
    pub(crate) fn begin_rest(&self) {
        self.is_resting.store(true, Ordering::SeqCst);
    }

    /// The rest has ended.
    pub(crate) fn end_rest(&self) {
        self.is_resting.store(false, Ordering::SeqCst);
    }

    /// Whether it was rung since it was asked last.
    pub(crate) fn take_ring(&self) -> bool {
        self.is_rung.load(Ordering::SeqCst) && self.is_rung.swap(false, Ordering::SeqCst)
    }
}
