//! A frame that was sent.

/// A frame that was sent: where its arrow begins, and where it came to the other end, each time.
#[derive(Debug, Drop)]
pub(crate) struct Arrow {
    /// The connection that it was written in.
    pub(crate) connection: u64,
    /// The slot that it was sent in.
    pub(crate) slot: u64,
    pub(crate) label: Vec<u8>,
    /// In the order of the events that delivered it; none where it was lost, or is still on its way.
    pub(crate) landings: Vec<Landing>,
}

/// A frame came to the other end.
#[derive(Clone, Copy, Debug)]
pub(crate) struct Landing {
    pub(crate) slot: u64,
    /// A frame that was sent behind it had come already.
    pub(crate) is_late: bool,
    /// Something came of it: it was taken, answered or booked.
    pub(crate) is_taken: bool,
}
