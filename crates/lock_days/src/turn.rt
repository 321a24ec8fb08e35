//! The turns of a day.

use std::fmt;
use trial::Order;

/// A report on the first leg of sweep 1, under its ExecID (17).
#[derive(Clone, Copy, Debug)]
pub enum Reported {
    /// A trade of so many shares at ten dollars.
    Trade(u64),
    /// The rest is cancelled.
    Canceled,
}

/// A turn of a day. Venues are counted from 0.
#[derive(Clone, Copy, Debug)]
pub enum Turn {
    Release(&'static [Order]),
    Raise(usize),
    Lower(usize),
    Pump(usize),
    /// So many legs, or as many as the ring has.
    Pop { venue: usize, legs: u64 },
    /// The same, and each is withdrawn in the book.
    Drop { venue: usize, legs: u64 },
    Book { exec: &'static str, says: Reported },
}

impl fmt::Display for Turn {
    fn fmt<W: fmt::Write>(&self, f: &mut fmt::Formatter<W>) -> fmt::Result {
        match self {
            Turn::Release(orders) => {
                let legs = orders.len();
                write!(f, "release {legs}")
            }
            Turn::Raise(venue) => write!(f, "raise {venue}"),
            Turn::Lower(venue) => write!(f, "lower {venue}"),
            Turn::Pump(venue) => write!(f, "pump {venue}"),
            Turn::Pop { venue, legs } => write!(f, "pop {venue} {legs}"),
            Turn::Drop { venue, legs } => write!(f, "drop {venue} {legs}"),
            Turn::Book { exec, says } => match says {
                Reported::Trade(shares) => write!(f, "trade {shares} {exec}"),
                Reported::Canceled => write!(f, "cancel {exec}"),
            },
        }
    }
}
