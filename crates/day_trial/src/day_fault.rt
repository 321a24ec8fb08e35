//! Why a day stopped, or what is wrong with it.

use leg::LegFault;
use session_worker::{AuditFault, RunFault};
use std::alloc::{AllocError, AllocFailed};
use std::{fmt, io};
use thiserror::Error;
use trial::{EndFault, TrialFault};

/// Why a day stopped, or what is wrong with it.
#[derive(Clone, Copy, Debug, PartialEq, Eq, Error)]
pub enum DayFault {
    #[error("{0}")]
    Trial(TrialFault),
    /// The system makes no more threads.
    #[error("no thread")]
    NoThread,
    /// The shares of this sweep don't add up to those that were released.
    #[error("the parts of sweep {0} don't add up")]
    Parts(u64),
    /// The withdrawn shares of this sweep aren't those of its legs that no exchange can have.
    #[error("the withdrawn shares of sweep {0} are others")]
    Withdrawn(u64),
    /// The exchange has this leg of the venue, by its ordinal, and the session says that it can't; or the other way
    /// round.
    #[error("the exchange and the session differ on leg {0}")]
    Differs(u64),
    /// The exchange accepted a leg twice, out of order, or one that wasn't taken from the ring.
    #[error("the exchange accepted other legs")]
    Accepted,
    /// The exchanges took every Logout, and the book hasn't got just the trades that they reported.
    #[error("the book has other trades than were reported")]
    Trades,
    /// The audit found something else than the sums over the sweeps.
    #[error("the audit tells other sums")]
    Sums,
    /// The day in which this call of the link fails doesn't end as it must.
    #[error("the day in which call {0} fails ends otherwise")]
    Call(u64),
    #[error("{0}")]
    Audit(AuditFault),
}

impl From<TrialFault> for DayFault {
    fn from(fault: TrialFault) -> DayFault {
        DayFault::Trial(fault)
    }
}

impl From<LegFault> for DayFault {
    fn from(fault: LegFault) -> DayFault {
        DayFault::Trial(TrialFault::from(fault))
    }
}

impl From<AuditFault> for DayFault {
    fn from(fault: AuditFault) -> DayFault {
        match fault {
            AuditFault::OutOfMemory => DayFault::Trial(TrialFault::OutOfMemory),
            found => DayFault::Audit(found),
        }
    }
}

impl From<RunFault> for DayFault {
    fn from(fault: RunFault) -> DayFault {
        match fault {
            RunFault::OutOfMemory => DayFault::Trial(TrialFault::OutOfMemory),
            RunFault::NoThread => DayFault::NoThread,
        }
    }
}

impl From<AllocError> for DayFault {
    fn from(_: AllocError) -> DayFault {
        DayFault::Trial(TrialFault::OutOfMemory)
    }
}

impl<T: Drop> From<AllocFailed<T>> for DayFault {
    fn from(_: AllocFailed<T>) -> DayFault {
        DayFault::Trial(TrialFault::OutOfMemory)
    }
}

impl From<fmt::Error> for DayFault {
    fn from(_: fmt::Error) -> DayFault {
        DayFault::Trial(TrialFault::OutOfMemory)
    }
}

impl From<io::Error> for DayFault {
    fn from(error: io::Error) -> DayFault {
        DayFault::Trial(TrialFault::from(error))
    }
}

impl EndFault for DayFault {
    fn status(&self) -> u8 {
        match self {
            DayFault::Trial(fault) => fault.status(),
            _ => 1,
        }
    }
}
