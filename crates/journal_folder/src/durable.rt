//! What a journal outlives.

/// What a line that is kept outlives.
#[derive(Clone, Copy, Debug, PartialEq, Eq)]
pub enum Durable {
    /// The end of the process, however it comes. The system has the line.
    Process,
    /// A loss of power. The disk has it, if that keeps what it said it kept.
    Power,
}
