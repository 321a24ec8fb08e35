//! The number of a leg.

ghost use Rattle.std.specs.Prelude.{◌≡◌, ◌≤◌, Some};
ghost use Rattle.leg.specs.LegId.{leg_id_text};

use std::fmt;
use std::marker::Model;

/// The highest number of a sweep.
pub const MAX_SWEEP: u64 = 999_999_999_999;

/// The last place of a leg in its sweep.
pub const MAX_PLACE: u8 = 32;

/// Which leg of which sweep: the sweep's number is from 1, and so is the leg's place there.
#[derive(Clone, Copy, Debug, PartialEq, Eq)]
pub struct LegId {
    sweep: u64,
    place: u8,
}

impl Model for LegId {
    ghost use Rattle.leg.specs.LegId.{LegIdParts, IsLegId};

    ghost Value = { LegIdParts };

    ghost view = { λ id. record { sweep = id.sweep; place = id.place } };

    ghost invariant = { λ id. IsLegId (record { sweep = id.sweep; place = id.place }) };

    ghost inverse = { λ parts. record { sweep = parts.sweep; place = parts.place } };
}

impl LegId {
    ghost use Rattle.leg.specs.LegId.{IsLegId};

    pub fn new(sweep: u64, place: u8) -> LegId
        requires sweep_low { 1 ≤ sweep }
        requires sweep_high { sweep ≤ MAX_SWEEP }
        requires place_low { 1 ≤ place }
        requires place_high { place ≤ MAX_PLACE }
        ensures value { result ≡ record { sweep = sweep; place = place } }
        ensures in_range { IsLegId result }
    {
        LegId { sweep, place }
    }

    /// The sweep's number, 1 to 999,999,999,999.
    pub fn sweep(&self) -> u64
        ensures value { result ≡ self.now.sweep }
        ensures in_range { IsLegId self.now }
    {
        self.sweep
    }

    /// The leg's place in its sweep, 1 to 32.
    pub fn place(&self) -> u8
        ensures value { result ≡ self.now.place }
        ensures in_range { IsLegId self.now }
    {
        self.place
    }
}

impl fmt::Display for LegId {
    ghost output = { λ id. Some (leg_id_text id) };

    fn fmt<W: fmt::Write>(&self, f: &mut fmt::Formatter<W>) -> fmt::Result {
        let sweep = self.sweep;
        let place = self.place;
        write!(f, "S{sweep}L{place}")
    }
}
