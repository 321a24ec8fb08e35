//! How far a day is.

/// How far a day is.
#[derive(Clone, Copy, Debug, PartialEq, Eq)]
pub struct SoFar {
    /// How many sweeps are placed.
    pub placed: u64,
    /// How many of their shares are filled, busted, cancelled or withdrawn.
    pub resolved: u64,
}

/// Is told, while a day runs, how far it is, and says whether it is to be cut short.
pub trait Progress {
    /// Is called at most once a second.
    fn tell(&mut self, so_far: SoFar);

    /// Whether the day is to be cut short. It isn't to wait: it is called every millisecond or so.
    fn is_stopped(&mut self) -> bool;
}
