//! What a venue's worker tells others.

use crate::progress::Progress;
use std::sync::atomic::{AtomicU64, Ordering};

/// What a venue's worker tells others, who may read it at any time. How far the session is comes at once; how many legs
/// were taken, settled, withdrawn and are in doubt, and when the exchange was heard, ten times a second at most. That
/// the book refused to withdraw a leg comes at once.
#[derive(Drop)]
pub struct VenueBoard {
    progress: AtomicU64,
    pause: AtomicU64,
    taken: AtomicU64,
    doubts: AtomicU64,
    settled: AtomicU64,
    withdrawn: AtomicU64,
    refused: AtomicU64,
    heard: AtomicU64,
}

impl VenueBoard {
    /// The board of a worker that has done nothing.
    pub fn new() -> VenueBoard {
        VenueBoard {
            progress: AtomicU64::new(Progress::Dialled.code()),
            pause: AtomicU64::new(0),
            taken: AtomicU64::new(0),
            doubts: AtomicU64::new(0),
            settled: AtomicU64::new(0),
            withdrawn: AtomicU64::new(0),
            refused: AtomicU64::new(0),
            heard: AtomicU64::new(0),
        }
    }

    /// The session is so far.
    pub fn tell(&self, progress: Progress) {
        self.progress.store(progress.code(), Ordering::SeqCst);
    }

    /// The next dial comes after so many milliseconds.
    pub fn tell_pause(&self, millis: u64) {
        self.pause.store(millis, Ordering::SeqCst);
    }

    /// So many legs were taken, and so many of them are in doubt: none up to the ordinal `settled`. So many of those
    /// taken were withdrawn.
    pub fn tell_legs(&self, taken: u64, doubts: u64, settled: u64, withdrawn: u64) {
        self.taken.store(taken, Ordering::SeqCst);
        self.doubts.store(doubts, Ordering::SeqCst);
        self.settled.store(settled, Ordering::SeqCst);
        self.withdrawn.store(withdrawn, Ordering::SeqCst);
    }

    /// The book refused to withdraw so many legs.
    pub fn tell_refused(&self, refused: u64) {
        self.refused.store(refused, Ordering::SeqCst);
    }

    /// The last message was received when the worker's clock told so many milliseconds.
    pub fn tell_heard(&self, millis: u64) {
        self.heard.store(millis, Ordering::SeqCst);
    }

    /// How far the session is.
    pub fn progress(&self) -> Progress {
        Progress::of_code(self.progress.load(Ordering::SeqCst)).unwrap_or(Progress::Dialled)
    }

    /// How many milliseconds the pause before the next dial lasts, counted from when the session was found down.
    pub fn pause(&self) -> u64 {
        self.pause.load(Ordering::SeqCst)
    }

    /// How many legs of the venue the worker has taken: those that were sent, and those that were withdrawn.
    pub fn taken(&self) -> u64 {
        self.taken.load(Ordering::SeqCst)
    }

    /// How many legs were sent of which it isn't known whether the exchange has them.
    pub fn doubts(&self) -> u64 {
        self.doubts.load(Ordering::SeqCst)
    }

    /// Up to which ordinal no leg is in doubt any more: each was settled, or withdrawn.
    pub fn settled(&self) -> u64 {
        self.settled.load(Ordering::SeqCst)
    }

    /// How many of the legs taken were withdrawn in the book: the exchange has none of them.
    pub fn withdrawn(&self) -> u64 {
        self.withdrawn.load(Ordering::SeqCst)
    }

    /// How many withdrawals the book refused: reports had moved shares of these legs, and the exchange showed later
    /// that it hadn't taken the orders. It contradicts itself, and a person has to ask it.
    pub fn refused(&self) -> u64 {
        self.refused.load(Ordering::SeqCst)
    }

    /// What the worker's clock told, in milliseconds, when the last message was received or the connection was made; 0
    /// before the first one.
    pub fn heard(&self) -> u64 {
        self.heard.load(Ordering::SeqCst)
    }
}
