//! What a desk is told while its day goes on.

ghost use Rattle.std.specs.Prelude.{Some};
ghost use Rattle.desk_news.specs.News.{news_text};

use crate::paid::PaidSweep;
use crate::venue_state::VenueState;
use desk_words::VenueName;
use std::fmt;

/// A change, in one line.
#[derive(Debug, PartialEq, Eq, Drop)]
pub enum News {
    /// The parts of a sweep changed, or what was paid for it.
    Sweep(PaidSweep),
    /// A venue stands otherwise than before; so it is never told that one is dialled, with which each day begins.
    Venue { venue: VenueName, state: VenueState },
    /// A venue's exchange contradicted itself, on so many legs by now: it reported on them, and showed later that it
    /// hadn't taken them. The book keeps the reports.
    Contradicted { venue: VenueName, legs: u64 },
}

impl fmt::Display for News {
    ghost output = { λ news. Some (news_text news) };

    fn fmt<W: fmt::Write>(&self, f: &mut fmt::Formatter<W>) -> fmt::Result {
        match self {
            News::Sweep(sweep) => write!(f, "{sweep}"),
            News::Venue { venue, state } => write!(f, "venue {venue} {state}"),
            News::Contradicted { venue, legs } => write!(f, "contradicted {venue} legs {legs}"),
        }
    }
}
