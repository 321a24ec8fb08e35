//! Why a day's audit fails.

use thiserror::Error;

/// Why a day's audit fails. The first that is so is answered.
#[derive(Clone, Copy, Debug, PartialEq, Eq, Error)]
pub enum AuditFault {
    /// The worker at this place, from 0, didn't take the first legs released to the venue of that number.
    #[error("A01 mismatch of queue {0}")]
    MismatchQueue(usize),
    /// The workers' seats don't add up to what the venues have resolved.
    #[error("A02 mismatch of shares")]
    MismatchShares,
    /// The callers' seats don't add up to the shares placed.
    #[error("A03 mismatch of placed shares")]
    MismatchPlaced,
    /// There was no memory to take the ends apart.
    #[error("A04 out of memory")]
    OutOfMemory,
}
