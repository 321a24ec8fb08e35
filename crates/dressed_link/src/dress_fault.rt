//! Why bytes can't be dressed.

ghost use Rattle.std.specs.Prelude.{◌≡◌};
ghost use Rattle.dressed_link.specs.declared.dress_fault.DressFault.TheVariants.{OutOfMemory};

use fix_text::{ReaderFault, TextFault};
use std::alloc::AllocError;

/// Why bytes can't be dressed.
#[derive(Clone, Copy, Debug, PartialEq, Eq, Drop)]
pub(crate) enum DressFault {
    /// They don't begin with a valid frame, or it can't be written with what is put on.
    NoFrame,
    /// No memory is left.
    OutOfMemory,
}

impl From<AllocError> for DressFault {
    ghost from_gives = { λ _ fault. fault ≡ OutOfMemory };

    fn from(_: AllocError) -> DressFault {
        DressFault::OutOfMemory
    }
}

impl From<TextFault> for DressFault {
    ghost use Rattle.std.specs.Prelude.{◌≡◌};
    ghost use Rattle.dressed_link.specs.Refusing.{dress_fault_of};

    ghost from_gives = { λ fault given. given ≡ dress_fault_of fault };

    fn from(fault: TextFault) -> DressFault {
        match fault {
            TextFault::BadTag | TextFault::BadValue | TextFault::TooLong => DressFault::NoFrame,
            TextFault::OutOfMemory => DressFault::OutOfMemory,
        }
    }
}

impl From<ReaderFault> for DressFault {
    ghost from_gives = { λ _ fault. fault ≡ OutOfMemory };

    fn from(_: ReaderFault) -> DressFault {
        DressFault::OutOfMemory
    }
}
