//! How gates and sums are printed.

use leg::Totals;
use std::fmt;
use sweep_release::Gate;

/// The name of a gate's position.
pub fn gate_name(gate: Gate) -> &'static str {
    match gate {
        Gate::Up => "up",
        Gate::Down => "down",
        Gate::Shut => "shut",
    }
}

/// What became of the shares of a sweep. It is printed as ` 4 filled 6 cancelled`, without the parts of no share.
#[derive(Clone, Copy, Debug, PartialEq, Eq)]
pub struct Parts(pub Totals);

impl fmt::Display for Parts {
    fn fmt<W: fmt::Write>(&self, f: &mut fmt::Formatter<W>) -> fmt::Result {
        let totals = self.0;
        for (shares, name) in [
            (totals.filled, "filled"),
            (totals.busted, "busted"),
            (totals.cancelled, "cancelled"),
            (totals.withdrawn, "withdrawn"),
            (totals.still_open, "open"),
        ] {
            if shares > 0 {
                write!(f, " {shares} {name}")?;
            }
        }
        Ok(())
    }
}
