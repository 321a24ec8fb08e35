//! The number of a venue.

ghost use Rattle.std.specs.Prelude.{◌≡◌, Some, decimal};
ghost use Rattle.leg.specs.Venue.{venue_of};

use crate::LegFault;
use std::fmt;
use std::marker::Model;

/// The highest number of a venue.
pub const MAX_VENUE: u8 = 15;

/// Which of the venues that orders are sent to, from 0 to 15.
#[derive(Clone, Copy, Debug, PartialEq, Eq)]
pub struct VenueId {
    number: u8,
}

impl Model for VenueId {
    ghost use Rattle.std.specs.Prelude.{ℕ};
    ghost use Rattle.leg.specs.Venue.{IsVenue};

    ghost Value = { ℕ };

    ghost view = { λ v. v.number };

    ghost invariant = { λ v. IsVenue v.number };

    ghost inverse = { λ n. record { number = n } };
}

impl VenueId {
    ghost use Rattle.leg.specs.Venue.{IsVenue};

    /// L04 above 15.
    pub fn new(number: u8) -> Result<VenueId, LegFault>
        ensures { result ≡ venue_of number }
    {
        if number > MAX_VENUE {
            return Err(LegFault::BadVenue);
        }
        Ok(VenueId { number })
    }

    /// The number, 0 to 15.
    pub fn number(&self) -> u8
        ensures value { result ≡ self.now }
        ensures in_range { IsVenue self.now }
    {
        self.number
    }
}

impl fmt::Display for VenueId {
    ghost output = { λ venue. Some (decimal venue) };

    fn fmt<W: fmt::Write>(&self, f: &mut fmt::Formatter<W>) -> fmt::Result {
        let number = self.number;
        write!(f, "{number}")
    }
}
