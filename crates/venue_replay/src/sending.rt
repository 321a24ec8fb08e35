//! What becomes of a leg that is to be sent.

use session_core::SessionFault;

/// What becomes of a leg that is to be sent.
#[derive(Clone, Copy, Debug, PartialEq, Eq)]
pub enum Sending {
    /// Its order was written.
    Sent,
    /// The session has no number left for it, S03.
    NumbersSpent,
    /// The session refuses it for anything else.
    Refused(SessionFault),
}
