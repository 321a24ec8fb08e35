//! Why a day ends before its host ends it.

ghost use Rattle.std.specs.Prelude.{◌≡◌};
ghost use Rattle.embed.specs.Codes.{code_of};

use std::alloc::{AllocError, AllocFailed};

/// Why a day ends before its host ends it.
#[derive(Clone, Copy)]
pub enum Stopped {
    /// The venues' text isn't one.
    BadSetup,
    OutOfMemory,
    EventTooLong,
    /// Nothing can be read from the socket, or written to it.
    Socket,
}

impl Stopped {
    /// The number that C knows it by.
    pub fn code(self) -> u32
        ensures { result ≡ code_of self }
    {
        match self {
            Stopped::BadSetup => 1,
            Stopped::OutOfMemory => 2,
            Stopped::EventTooLong => 3,
            Stopped::Socket => 4,
        }
    }
}

impl From<AllocError> for Stopped {
    fn from(_: AllocError) -> Stopped {
        Stopped::OutOfMemory
    }
}

impl<T: Drop> From<AllocFailed<T>> for Stopped {
    fn from(_: AllocFailed<T>) -> Stopped {
        Stopped::OutOfMemory
    }
}
