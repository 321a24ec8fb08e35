//! Why the book refuses a call.

ghost use Rattle.std.specs.Prelude.{◌≡◌};

use std::alloc::AllocError;
use thiserror::Error;

/// Why the book refuses a call. It is as it was.
#[derive(Clone, Copy, Debug, PartialEq, Eq, Error)]
pub enum BookFault {
    /// The sweep's number isn't the one after the last that was opened.
    #[error("B01 not next")]
    NotNext,
    #[error("B02 out of memory")]
    OutOfMemory,
    /// The leg isn't there, or some of its shares are no longer open.
    #[error("B03 already moved")]
    AlreadyMoved,
    /// The sweep has no leg or more than 32, a leg is for a venue that the book hasn't got, or the shares opened in
    /// all would be more than 10^18.
    #[error("B04 unfit")]
    Unfit,
}

impl From<AllocError> for BookFault {
    ghost use Rattle.share_ledger.specs.declared.book_fault.BookFault.TheVariants.{OutOfMemory};

    ghost from_gives = { λ _ e. e ≡ OutOfMemory };

    fn from(_e: AllocError) -> BookFault {
        BookFault::OutOfMemory
    }
}
