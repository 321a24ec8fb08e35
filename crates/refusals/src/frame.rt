//! A frame that was written.

/// A frame that was written, in a connection.
#[derive(Debug, Drop)]
pub struct Frame {
    /// The connection that it was written in, counted from 1.
    pub connection: u64,
    pub bytes: Vec<u8>,
}
