//! How much of what a venue said the book didn't take.

ghost use Rattle.std.specs.Prelude.{Some};
ghost use Rattle.desk_executions.specs.Counts.{unbooked_text};

use desk_words::VenueName;
use std::fmt;

/// How many notes of a venue the book didn't take, by the reason.
#[derive(Clone, Copy, Debug, PartialEq, Eq)]
pub struct UnbookedCounts {
    pub duplicates: u64,
    pub overfills: u64,
    pub strays: u64,
    /// How many can't be read.
    pub unread: u64,
}

/// The counts of a venue, as `status` tells them.
#[derive(Debug, PartialEq, Eq, Drop)]
pub struct UnbookedStatus {
    pub venue: VenueName,
    pub counts: UnbookedCounts,
}

impl fmt::Display for UnbookedStatus {
    ghost output = { λ status. Some (unbooked_text status) };

    fn fmt<W: fmt::Write>(&self, f: &mut fmt::Formatter<W>) -> fmt::Result {
        let venue = &self.venue;
        let UnbookedCounts {
            duplicates,
            overfills,
            strays,
            unread,
        } = self.counts;
        write!(
            f,
            "status unbooked {venue} duplicate {duplicates} overfill {overfills} stray {strays} unread {unread}"
        )
    }
}
