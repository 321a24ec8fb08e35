//! Where a log differs from what a session writes.

ghost use Rattle.std.specs.Prelude.{◌≡◌, ◌↔◌, IsTrue};

use fix_text::ReaderFault;
use session_core::SessionFault;
use std::alloc::{AllocError, AllocFailed};

/// Why a line isn't what a session writes.
#[derive(Debug, Drop)]
pub enum Difference {
    /// The session writes this frame.
    Writes(Vec<u8>),
    /// The session writes nothing.
    Nothing,
    /// The log shows nothing as sent.
    NothingSent,
    /// It isn't known, since there is no memory.
    OutOfMemory,
}

/// The first line of a log, from 0, that isn't what a session writes.
#[derive(Debug, Drop)]
pub struct Differs {
    pub place: usize,
    pub why: Difference,
}

impl Differs {
    /// Whether it isn't known what the session writes, since there is no memory: that tells nothing of the log.
    pub fn is_unknown(&self) -> bool
        ensures { IsTrue result ↔ (self.now.why ≡ Difference.OutOfMemory) }
    {
        matches!(&self.why, Difference::OutOfMemory)
    }
}

impl From<AllocError> for Difference {
    fn from(_fault: AllocError) -> Difference {
        Difference::OutOfMemory
    }
}

impl<T: Drop> From<AllocFailed<T>> for Difference {
    fn from(_fault: AllocFailed<T>) -> Difference {
        Difference::OutOfMemory
    }
}

impl From<ReaderFault> for Difference {
    fn from(_fault: ReaderFault) -> Difference {
        Difference::OutOfMemory
    }
}

/// Of a call that adds no step where it is refused, this is out of memory alone.
impl From<SessionFault> for Difference {
    fn from(_fault: SessionFault) -> Difference {
        Difference::OutOfMemory
    }
}
