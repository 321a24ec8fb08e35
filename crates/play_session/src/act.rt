//! What is done to a session.

use leg::Leg;

/// What is done to a session: a call of it, or a frame that comes.
#[derive(Debug, Drop)]
pub enum Act {
    Connect,
    /// Sends the leg of this ordinal.
    Leg(u64, Leg),
    /// These bytes come.
    Frame(Vec<u8>),
    Confirm,
    Quiet,
    Silent,
    Close,
    Malformed,
    Broken,
    Abandon,
}
