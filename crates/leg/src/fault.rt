//! Why a part of an order is refused.

use thiserror::Error;

/// What is out of range, or why shares can't be moved.
#[derive(Debug, Clone, Copy, PartialEq, Eq, Error)]
pub enum LegFault {
    /// The root isn't 1 to 6 letters A to Z, or the suffix isn't 0 to 3.
    #[error("L01 bad symbol")]
    BadSymbol,
    /// The shares aren't 1 to 1,000,000.
    #[error("L02 bad shares")]
    BadShares,
    /// The price isn't 0.0001 to 999,999.9999 dollars.
    #[error("L03 bad price")]
    BadPrice,
    /// The venue isn't 0 to 15.
    #[error("L04 bad venue")]
    BadVenue,
    /// More shares are filled than are open.
    #[error("L05 overfill")]
    Overfill,
    /// Some of the leg's shares are no longer open.
    #[error("L06 already moved")]
    AlreadyMoved,
    /// More shares are busted than are filled.
    #[error("L07 not filled")]
    NotFilled,
}
