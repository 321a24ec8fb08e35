//! What a turn's call answered.

use share_ledger::Applied;
use std::fmt;
use sweep_release::{GateFault, Receipt, ReleaseFault};

/// What a turn's call answered.
#[derive(Clone, Copy, Debug, PartialEq, Eq)]
pub enum Answer {
    Released(Receipt),
    Refused(ReleaseFault),
    Raised,
    NotRaised(GateFault),
    Lowered,
    /// How many legs were pushed to the venue in all.
    Pushed(u64),
    /// How many legs were popped.
    Popped(u64),
    Booked(Applied),
}

impl fmt::Display for Answer {
    fn fmt<W: fmt::Write>(&self, f: &mut fmt::Formatter<W>) -> fmt::Result {
        match self {
            Answer::Released(receipt) => {
                let number = receipt.number;
                let shares = receipt.shares;
                write!(f, "sweep {number} of {shares} shares")
            }
            Answer::Refused(fault) => write!(f, "{fault}"),
            Answer::Raised => f.write_str("up"),
            Answer::NotRaised(fault) => write!(f, "{fault}"),
            Answer::Lowered => f.write_str("down"),
            Answer::Pushed(legs) => write!(f, "{legs} pushed"),
            Answer::Popped(legs) => write!(f, "{legs} popped"),
            Answer::Booked(applied) => write!(f, "{applied:?}"),
        }
    }
}
