//! How a venue stands.

ghost use Rattle.std.specs.Prelude.{Some};
ghost use Rattle.desk_news.specs.Venue.{state_text};

use crate::cause::{Cause, Told};
use std::fmt;

/// How a venue stands.
#[derive(Debug, PartialEq, Eq, Drop)]
pub enum VenueState {
    /// It is dialled for the first time: it was neither up yet nor has a dial failed.
    Dialled,
    /// Its session is up: it takes orders.
    Up,
    /// Its connection ended, and is dialled again.
    Down(Cause),
    /// A dial failed: why, and in how many seconds the next one is tried.
    Unreachable { why: Told, seconds: u64 },
    /// It takes no orders any more in this day.
    Closed(Cause),
}

impl fmt::Display for VenueState {
    ghost output = { λ state. Some (state_text state) };

    fn fmt<W: fmt::Write>(&self, f: &mut fmt::Formatter<W>) -> fmt::Result {
        match self {
            VenueState::Dialled => write!(f, "dialled"),
            VenueState::Up => write!(f, "up"),
            VenueState::Down(cause) => write!(f, "down: {cause}"),
            VenueState::Unreachable { why, seconds } => {
                write!(f, "unreachable: {why}, next try in {seconds} s")
            }
            VenueState::Closed(cause) => write!(f, "closed: {cause}"),
        }
    }
}
