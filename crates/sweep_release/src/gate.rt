//! Whether legs are taken to a venue.

ghost use Rattle.std.specs.Prelude.{◌≡◌};
ghost use Rattle.sweep_release.specs.Gates.{gate_due};

/// Whether legs are released to a venue, and taken to it.
#[derive(Clone, Copy, Debug, PartialEq, Eq)]
pub enum Gate {
    /// Legs are released to the venue and taken to it.
    Up,
    /// None are, and what is placed is dropped; the gate may be put up again.
    Down,
    /// As down, for good.
    Shut,
}

impl Gate {
    /// How many entries the next changes of the gate may write: one that is up is put down and then shut.
    pub(crate) fn due(self) -> usize
        ensures { result ≡ gate_due self }
    {
        match self {
            Gate::Up => 2,
            Gate::Down => 1,
            Gate::Shut => 0,
        }
    }
}
