//! What a day came to.

ghost use Rattle.std.specs.Prelude.{Some};
ghost use Rattle.desk_news.specs.Day.{day_text};

use std::fmt;

/// The last line of a day whose audit found nothing wrong.
pub const AUDIT_OK: &str = "audit ok";

/// The shares of a day.
#[derive(Clone, Copy, Debug, PartialEq, Eq)]
pub struct DayTotals {
    /// Of all sweeps that were placed.
    pub placed: u64,
    /// Filled, busted, cancelled or withdrawn.
    pub resolved: u64,
    /// Open still.
    pub still_open: u64,
}

impl fmt::Display for DayTotals {
    ghost output = { λ totals. Some (day_text totals) };

    fn fmt<W: fmt::Write>(&self, f: &mut fmt::Formatter<W>) -> fmt::Result {
        let DayTotals {
            placed,
            resolved,
            still_open,
        } = *self;
        write!(
            f,
            "day placed {placed} resolved {resolved} open {still_open}"
        )
    }
}
