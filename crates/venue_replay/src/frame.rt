//! A frame that was written.

/// A frame that was written: its bytes, and the connection that it was written in, counted from 1.
#[derive(Debug, Drop)]
pub struct Frame {
    pub connection: u64,
    pub bytes: Vec<u8>,
}
