//! Why a gate isn't put up.

ghost use Rattle.std.specs.Prelude.{◌≡◌};

use std::alloc::AllocError;
use thiserror::Error;

/// Why a gate isn't put up. The desk is as it was.
#[derive(Clone, Copy, Debug, PartialEq, Eq, Error)]
pub enum GateFault {
    /// Legs are still placed at the venue that were neither taken nor dropped.
    #[error("G01 not drained")]
    NotDrained,
    /// The gate was shut, for good.
    #[error("G02 closed")]
    Closed,
    #[error("G03 out of memory")]
    OutOfMemory,
}

impl From<AllocError> for GateFault {
    ghost use Rattle.sweep_release.specs.declared.gate_fault.GateFault.TheVariants.{OutOfMemory};

    ghost from_gives = { λ _ e. e ≡ OutOfMemory };

    fn from(_e: AllocError) -> GateFault {
        GateFault::OutOfMemory
    }
}
