//! What a read gave.

/// What a read gave.
#[derive(Clone, Copy, Debug, PartialEq, Eq)]
pub enum Got {
    /// So many bytes, at the front of the buffer.
    Bytes(usize),
    /// No byte was there yet.
    Nothing,
    /// No byte comes any more: the other side wrote its last one, or there is no connection.
    End,
}
