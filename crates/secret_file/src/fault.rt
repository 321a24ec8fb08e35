//! Why a file gives no secret.

use command_line::InputFault;
use std::alloc::AllocError;
use thiserror::Error;

/// Why a file gives no secret.
#[derive(Clone, Copy, Debug, PartialEq, Eq, Error)]
pub enum SecretFault {
    #[error("it can't be opened")]
    NoFile,
    /// Its mode gives others than its owner a right.
    #[error("others than its owner may open it: chmod 600")]
    OpenToOthers,
    /// It is empty, longer than the most bytes, has more lines than one, or a byte that isn't printable.
    #[error("it has to be one line of 1 to {most} printable characters")]
    BadLine { most: usize },
    #[error("read failed")]
    ReadFailed,
    #[error("out of memory")]
    OutOfMemory,
}

impl From<AllocError> for SecretFault {
    fn from(_fault: AllocError) -> SecretFault {
        SecretFault::OutOfMemory
    }
}

impl From<InputFault> for SecretFault {
    fn from(fault: InputFault) -> SecretFault {
        match fault {
            InputFault::OutOfMemory => SecretFault::OutOfMemory,
            InputFault::ReadFailed => SecretFault::ReadFailed,
        }
    }
}
