//! Why an act of an exchange is refused.

ghost use Rattle.std.specs.Prelude.{◌≡◌};

use std::alloc::{AllocError, AllocFailed};
use thiserror::Error;

/// Why an act is refused. The exchange is as it was.
#[derive(Clone, Copy, Debug, PartialEq, Eq, Error)]
pub enum ExchangeFault {
    /// No order has this place among those accepted, which are counted from 1.
    #[error("X01 no such order")]
    NoSuchOrder,
    /// The trade is of 0 shares, or of more than are open.
    #[error("X02 too many shares")]
    TooManyShares,
    /// Nothing of the order is open.
    #[error("X03 done")]
    Done,
    /// There is no memory left for the report or for its frame.
    #[error("X04 out of memory")]
    OutOfMemory,
    /// The next own number is one that no message may have.
    #[error("X05 numbers spent")]
    NumbersSpent,
    /// The order has no trade of this place, counted from 1, or it is busted already.
    #[error("X06 no such trade")]
    NoSuchTrade,
    /// The order wasn't ended by a cancel of its rest, which a bust needs.
    #[error("X07 not cancelled")]
    NotCancelled,
}

impl From<AllocError> for ExchangeFault {
    ghost use Rattle.exchange_core.specs.declared.exchange_fault.ExchangeFault.TheVariants.{OutOfMemory};

    ghost from_gives = { λ _ e. e ≡ OutOfMemory };

    fn from(_e: AllocError) -> ExchangeFault {
        ExchangeFault::OutOfMemory
    }
}

impl<T: Drop> From<AllocFailed<T>> for ExchangeFault {
    ghost use Rattle.exchange_core.specs.declared.exchange_fault.ExchangeFault.TheVariants.{OutOfMemory};

    ghost from_gives = { λ _ e. e ≡ OutOfMemory };

    fn from(_e: AllocFailed<T>) -> ExchangeFault {
        ExchangeFault::OutOfMemory
    }
}
