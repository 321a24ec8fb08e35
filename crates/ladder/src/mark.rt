//! What is marked at a life line.

/// What a mark tells.
#[derive(Clone, Copy, Debug, PartialEq, Eq)]
pub(crate) enum Tone {
    /// A leg was taken, or a report booked; or the session is up.
    Good,
    /// A leg was withdrawn, or a connection is gone.
    Bad,
    /// An end was closed.
    Plain,
}

/// The life line of a mark.
#[derive(Clone, Copy, Debug, PartialEq, Eq)]
pub(crate) enum End {
    Session,
    Exchange,
}

/// A mark at a life line.
#[derive(Debug, Drop)]
pub(crate) struct Mark {
    pub(crate) end: End,
    pub(crate) slot: u64,
    pub(crate) tone: Tone,
    pub(crate) text: Vec<u8>,
}
