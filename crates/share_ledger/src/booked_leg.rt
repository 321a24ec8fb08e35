//! A leg in the book.

ghost use Rattle.std.specs.Prelude.{◌≡◌, nat_lt};
ghost use Rattle.leg.specs.Split.{IsSplit};
ghost use Rattle.share_ledger.specs.Kept.{legs_due};

use leg::{Split, VenueId};

/// A leg that was opened: its venue, and what became of its shares.
#[derive(Clone, Copy, Debug, PartialEq, Eq)]
pub struct BookedLeg {
    pub venue: VenueId,
    pub parts: Split,
}

impl BookedLeg {
    /// How many withdrawals of it may still come: one, while all its shares are open.
    pub fn due(&self) -> usize
        ensures { result ≡ legs_due self.now }
    {
        usize::from(self.parts.still_open() == self.parts.shares())
    }

    /// Whether it was withdrawn.
    pub fn is_withdrawn(&self) -> bool
        ensures value { result ≡ nat_lt 0 self.now.parts.withdrawn }
        ensures in_range { IsSplit self.now.parts }
    {
        self.parts.withdrawn() > 0
    }

    /// Does nothing when it runs. Its contract tells a caller that the parts are in range.
    pub fn in_range(&self)
        ensures { IsSplit self.now.parts }
    {
        let _ = self.parts.shares();
    }
}
