//! An event.

/// An event of the day, as its script says it.
#[derive(Debug, Drop)]
pub(crate) struct Row {
    /// The number of its line.
    pub(crate) line: u64,
    pub(crate) text: Vec<u8>,
    /// Its first slot.
    pub(crate) slot: u64,
    /// Whether nothing else is written in its slots, so that its text has all the room.
    pub(crate) is_wide: bool,
    /// Whether nothing came of it.
    pub(crate) is_idle: bool,
}
