//! What the process uses of the machine.

/// What the process uses of the machine.
#[derive(Clone, Copy, Debug, PartialEq, Eq)]
pub struct ProcessUse {
    /// The processor time of its threads so far, in microseconds.
    pub cpu: u64,
    /// Its resident memory, in bytes.
    pub resident: u64,
    /// All memory that it has mapped, in bytes.
    pub mapped: u64,
}
