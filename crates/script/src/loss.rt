//! What a crash loses.

ghost use Rattle.std.specs.Prelude.{◌≡◌, ◌≤◌, length};

use arrayvec::ArrayVec;
use std::marker::Model;

/// The most venues of a script.
pub(crate) const MAX_VENUES: usize = 16;

/// What isn't on the dispatcher's disk when it is killed.
#[derive(Debug, Drop)]
pub struct Loss {
    sweeps: u64,
    lines: ArrayVec<u64, MAX_VENUES>,
}

impl Model for Loss {
    ghost use Rattle.world_restart.specs.Start.{Loss};

    ghost Value = { Loss };

    ghost view = { λ l. record { sweeps = l.sweeps; lines = l.lines.items } };
}

impl Loss {
    pub(crate) fn new(sweeps: u64, lines: ArrayVec<u64, MAX_VENUES>) -> Loss
        ensures { result ≡ record { sweeps = sweeps; lines = lines.items } }
    {
        Loss { sweeps, lines }
    }

    /// How many of the sweeps that were placed last.
    pub fn sweeps(&self) -> u64
        ensures { result ≡ self.now.sweeps }
    {
        self.sweeps
    }

    /// How many of the last lines of each venue's journal, in the order of the venues; of a venue behind them none.
    pub fn lines(&self) -> &[u64]
        ensures { result.now ≡ self.now.lines }
    {
        self.lines.as_slice()
    }
}
