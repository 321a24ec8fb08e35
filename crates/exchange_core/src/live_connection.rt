//! What belongs to a connection while it is live.

/// The live connection, and the expected number for which the missing messages were asked for in it, if they were.
#[derive(Clone, Copy, Debug, PartialEq, Eq)]
pub struct LiveConnection {
    pub connection: u64,
    pub asked: Option<u64>,
}
