//! A connection.

/// A connection of the session, from the event that began it to the one that ended it.
#[derive(Clone, Copy, Debug)]
pub(crate) struct Band {
    pub(crate) connection: u64,
    pub(crate) first: u64,
    /// The slot of its end, if it ended.
    pub(crate) last: Option<u64>,
}
