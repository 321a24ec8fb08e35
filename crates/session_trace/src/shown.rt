//! What a line of a log shows.

/// What a line of a log shows: the bytes of a message, and which way it went.
#[derive(Debug, Drop)]
pub enum Shown {
    Sent(Vec<u8>),
    Received(Vec<u8>),
}
