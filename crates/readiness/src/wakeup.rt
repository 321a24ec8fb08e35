//! What ends a wait for an input.

use mio::{Registry, Token, Waker};
use std::io;

/// Its token. The input has another.
const WAKEUP: Token = Token(1);

/// What another thread ends a wait for an input with: the one that is under way, or else the next.
#[derive(Drop)]
pub struct Wakeup(Waker);

impl Wakeup {
    pub(crate) fn new(registry: &Registry) -> io::Result<Wakeup> {
        Ok(Wakeup(Waker::new(registry, WAKEUP)?))
    }

    /// Ends the wait. It doesn't wait.
    pub fn ring(&self) {
        // It fails only where the system's counter is full, and then the wait has been ended.
        let _ = self.0.wake();
    }
}
