//! Why a sweep is refused.

ghost use Rattle.std.specs.Prelude.{◌≡◌};

use leg::VenueId;
use std::alloc::{AllocError, AllocFailed};
use thiserror::Error;

/// Why a sweep is refused, the first that holds. Nothing of it is placed. A venue is that of the first leg, in the
/// order of the places, that is refused for it.
#[derive(Clone, Copy, Debug, PartialEq, Eq, Error)]
pub enum ReleaseFault {
    #[error("R01 empty")]
    Empty,
    /// The sweep has more than 32 legs.
    #[error("R02 too many legs")]
    TooManyLegs,
    /// The desk hasn't got the venue.
    #[error("R03 unknown venue {0}")]
    UnknownVenue(VenueId),
    /// The venue's gate is down or shut.
    #[error("R04 gate shut {0}")]
    GateShut(VenueId),
    /// More than 256 legs would be placed at the venue and neither taken nor dropped.
    #[error("R05 backlog full {0}")]
    BacklogFull(VenueId),
    /// 999,999,999,999 sweeps were released, or the shares released in all would be more than 10^18.
    #[error("R06 sweeps spent")]
    SweepsSpent,
    #[error("R07 out of memory")]
    OutOfMemory,
    /// The book would refuse the sweep under its number: it isn't the one that goes with this desk.
    #[error("R08 wrong book")]
    WrongBook,
}

impl From<AllocError> for ReleaseFault {
    ghost use Rattle.sweep_release.specs.declared.release_fault.ReleaseFault.TheVariants.{OutOfMemory};

    ghost from_gives = { λ _ e. e ≡ OutOfMemory };

    fn from(_e: AllocError) -> ReleaseFault {
        ReleaseFault::OutOfMemory
    }
}

impl<T: Drop> From<AllocFailed<T>> for ReleaseFault {
    ghost use Rattle.sweep_release.specs.declared.release_fault.ReleaseFault.TheVariants.{OutOfMemory};

    ghost from_gives = { λ _ e. e ≡ OutOfMemory };

    fn from(_e: AllocFailed<T>) -> ReleaseFault {
        ReleaseFault::OutOfMemory
    }
}
