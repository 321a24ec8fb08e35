//! A call of a session, as a value.

use fix_tags::EnvelopeRef;
use leg::Leg;

/// A call of a session.
#[derive(Debug, Drop)]
pub enum SessionCall<'a> {
    Connect,
    /// Sends the leg of this ordinal.
    SendLeg(u64, Leg),
    Receive(EnvelopeRef<'a>),
    Confirm,
    Quiet,
    Silent,
    Close,
    Malformed,
    Broken,
    Abandon,
}
