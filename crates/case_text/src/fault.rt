//! Why a command has no answer.

use std::alloc::{AllocError, AllocFailed};
use thiserror::Error;

/// A command that wasn't carried out.
#[derive(Clone, Copy, Debug, PartialEq, Eq, Error)]
pub enum PlayFault {
    #[error("not understood")]
    NotUnderstood,
    #[error("out of memory")]
    OutOfMemory,
}

impl From<AllocError> for PlayFault {
    fn from(_: AllocError) -> PlayFault {
        PlayFault::OutOfMemory
    }
}

impl<T: Drop> From<AllocFailed<T>> for PlayFault {
    fn from(_: AllocFailed<T>) -> PlayFault {
        PlayFault::OutOfMemory
    }
}
