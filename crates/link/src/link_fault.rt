//! Why a link refuses a call.

ghost use Rattle.std.specs.Prelude.{◌≡◌, ◌+◌, min};

use thiserror::Error;

/// The call failed. What the connection carries from here on isn't known; the link may be dialled again.
#[derive(Clone, Copy, Debug, PartialEq, Eq, Error)]
#[error("the link failed")]
pub struct LinkFault;

impl LinkFault {
    /// A fault that is counted, up to the greatest number of its type.
    pub fn counted(faults: &mut u64) -> LinkFault
        ensures { faults.new ≡ min (faults.old + 1) 18446744073709551615 }
    {
        *faults = faults.saturating_add(1);
        LinkFault
    }
}
