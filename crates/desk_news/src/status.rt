//! How venues and sweeps stand, as `status` asks.

ghost use Rattle.std.specs.Prelude.{Some};
ghost use Rattle.desk_news.specs.Status.{contradicted_text, status_text, venue_status_text};

use crate::paid::PaidSweep;
use crate::venue_state::VenueState;
use desk_words::VenueName;
use std::fmt;

/// How a venue stands.
#[derive(Debug, PartialEq, Eq, Drop)]
pub struct VenueStatus {
    pub venue: VenueName,
    /// How many legs were released to it and aren't sent yet.
    pub unsent: u64,
    /// How many legs were sent of which it isn't known whether the exchange has them.
    pub doubt: u64,
    /// How many lines of its log were lost.
    pub lost: u64,
    /// On how many legs its exchange contradicted itself: it reported on them, and showed later that it hadn't taken
    /// them.
    pub contradicted: u64,
    pub state: VenueState,
}

/// A line of what `status` is answered.
#[derive(Debug, PartialEq, Eq, Drop)]
pub enum Status {
    Venue(VenueStatus),
    Sweep(PaidSweep),
}

/// The legs on which an exchange contradicted itself, where there are some.
#[derive(Clone, Copy)]
struct ContradictedText(u64);

impl fmt::Display for ContradictedText {
    ghost output = { λ text. Some (contradicted_text text.0) };

    fn fmt<W: fmt::Write>(&self, f: &mut fmt::Formatter<W>) -> fmt::Result {
        let legs = self.0;
        if legs == 0 {
            return Ok(());
        }
        write!(f, " contradicted {legs}")
    }
}

impl fmt::Display for VenueStatus {
    ghost output = { λ status. Some (venue_status_text status) };

    fn fmt<W: fmt::Write>(&self, f: &mut fmt::Formatter<W>) -> fmt::Result {
        let VenueStatus {
            venue,
            unsent,
            doubt,
            lost,
            contradicted,
            state,
        } = self;
        let contradicted = ContradictedText(*contradicted);
        write!(
            f,
            "venue {venue} unsent {unsent} doubt {doubt} lost {lost}{contradicted} {state}"
        )
    }
}

impl fmt::Display for Status {
    ghost output = { λ status. Some (status_text status) };

    fn fmt<W: fmt::Write>(&self, f: &mut fmt::Formatter<W>) -> fmt::Result {
        match self {
            Status::Venue(venue) => write!(f, "status {venue}"),
            Status::Sweep(sweep) => write!(f, "status {sweep}"),
        }
    }
}
