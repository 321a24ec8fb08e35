//! What is printed of a day.

/// What `dispatch replay` prints of a day.
#[derive(Clone, Copy, Debug)]
pub struct Shown {
    /// Each event, as it happens, with what it did or why it did nothing.
    pub steps: bool,
    /// Each frame that was written.
    pub frames: bool,
    /// The sums of the world, in the place of its lines.
    pub summary: bool,
}
