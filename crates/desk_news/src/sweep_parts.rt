//! What became of a sweep's shares.

ghost use Rattle.std.specs.Prelude.{Some};
ghost use Rattle.desk_news.specs.Sweep.{parts_text, sweep_text};

use leg::Totals;
use std::fmt;

/// What became of the shares of a sweep.
#[derive(Clone, Copy, Debug, PartialEq, Eq)]
pub struct SweepParts {
    /// Its number.
    pub sweep: u64,
    /// The shares of all its legs.
    pub shares: u64,
    /// Their five parts.
    pub totals: Totals,
}

/// The parts of shares.
#[derive(Clone, Copy)]
struct Parts(Totals);

impl fmt::Display for Parts {
    ghost output = { λ parts. Some (parts_text parts.0) };

    fn fmt<W: fmt::Write>(&self, f: &mut fmt::Formatter<W>) -> fmt::Result {
        let Totals {
            filled,
            busted,
            cancelled,
            withdrawn,
            still_open,
        } = self.0;
        write!(
            f,
            "filled {filled} busted {busted} cancelled {cancelled} withdrawn {withdrawn} open {still_open}"
        )
    }
}

impl fmt::Display for SweepParts {
    ghost output = { λ sweep. Some (sweep_text sweep) };

    fn fmt<W: fmt::Write>(&self, f: &mut fmt::Formatter<W>) -> fmt::Result {
        let SweepParts {
            sweep,
            shares,
            totals,
        } = *self;
        let parts = Parts(totals);
        write!(f, "sweep {sweep} legs {shares} {parts}")
    }
}
