//! Why a trial stopped.

use crate::EndFault;
use dialect::{DialectFault, SpellFault};
use exchange_core::ExchangeFault;
use fix_tags::{TagFault, WriteFault};
use fix_text::ReaderFault;
use leg::LegFault;
use session_core::SessionFault;
use share_ledger::BookFault;
use std::alloc::{AllocError, AllocFailed};
use std::{fmt, io};
use sweep_release::{GateFault, ReleaseFault};
use thiserror::Error;

/// Why a trial stopped.
#[derive(Clone, Copy, Debug, PartialEq, Eq, Error)]
pub enum TrialFault {
    #[error("out of memory")]
    OutOfMemory,
    /// A call was refused that isn't meant to be.
    #[error("a call was refused")]
    Refused,
    /// A frame, a leg or a value isn't there.
    #[error("what is named isn't there")]
    Missing,
    /// A call that was refused memory changed something.
    #[error("a call that was refused memory changed something")]
    Changed,
    /// The words of the command line ask for something else than all days, or the one on which memory is refused.
    #[error("expected no word, or `refused`")]
    Words,
    #[error("read or write failed")]
    Io,
    /// A leg was popped out of its order.
    #[error("a leg was popped out of its order")]
    OutOfOrder,
}

impl From<AllocError> for TrialFault {
    fn from(_: AllocError) -> TrialFault {
        TrialFault::OutOfMemory
    }
}

impl<T: Drop> From<AllocFailed<T>> for TrialFault {
    fn from(_: AllocFailed<T>) -> TrialFault {
        TrialFault::OutOfMemory
    }
}

impl From<fmt::Error> for TrialFault {
    fn from(_: fmt::Error) -> TrialFault {
        TrialFault::OutOfMemory
    }
}

impl From<io::Error> for TrialFault {
    fn from(error: io::Error) -> TrialFault {
        match error.kind() {
            io::ErrorKind::OutOfMemory => TrialFault::OutOfMemory,
            _ => TrialFault::Io,
        }
    }
}

impl From<ReaderFault> for TrialFault {
    fn from(_: ReaderFault) -> TrialFault {
        TrialFault::OutOfMemory
    }
}

impl From<SpellFault> for TrialFault {
    fn from(_: SpellFault) -> TrialFault {
        TrialFault::OutOfMemory
    }
}

impl From<LegFault> for TrialFault {
    fn from(_: LegFault) -> TrialFault {
        TrialFault::Missing
    }
}

impl From<TagFault> for TrialFault {
    fn from(_: TagFault) -> TrialFault {
        TrialFault::Missing
    }
}

impl From<DialectFault> for TrialFault {
    fn from(_: DialectFault) -> TrialFault {
        TrialFault::Missing
    }
}

impl From<WriteFault> for TrialFault {
    fn from(fault: WriteFault) -> TrialFault {
        match fault {
            WriteFault::OutOfMemory => TrialFault::OutOfMemory,
            _ => TrialFault::Refused,
        }
    }
}

impl From<SessionFault> for TrialFault {
    fn from(fault: SessionFault) -> TrialFault {
        match fault {
            SessionFault::OutOfMemory => TrialFault::OutOfMemory,
            _ => TrialFault::Refused,
        }
    }
}

impl From<ExchangeFault> for TrialFault {
    fn from(fault: ExchangeFault) -> TrialFault {
        match fault {
            ExchangeFault::OutOfMemory => TrialFault::OutOfMemory,
            _ => TrialFault::Refused,
        }
    }
}

impl From<ReleaseFault> for TrialFault {
    fn from(fault: ReleaseFault) -> TrialFault {
        match fault {
            ReleaseFault::OutOfMemory => TrialFault::OutOfMemory,
            _ => TrialFault::Refused,
        }
    }
}

impl From<GateFault> for TrialFault {
    fn from(fault: GateFault) -> TrialFault {
        match fault {
            GateFault::OutOfMemory => TrialFault::OutOfMemory,
            _ => TrialFault::Refused,
        }
    }
}

impl From<BookFault> for TrialFault {
    fn from(fault: BookFault) -> TrialFault {
        match fault {
            BookFault::OutOfMemory => TrialFault::OutOfMemory,
            _ => TrialFault::Refused,
        }
    }
}

impl EndFault for TrialFault {
    fn status(&self) -> u8 {
        match self {
            TrialFault::Words => 2,
            TrialFault::Io => 4,
            TrialFault::OutOfMemory => 5,
            _ => 1,
        }
    }
}
