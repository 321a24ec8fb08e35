//! The sums of a log's sweeps.

ghost use Rattle.std.specs.Prelude.{◌≡◌, [], OnOk, OnErr};
ghost use Rattle.log_legs.specs.Sweeps.{leg_id_in, no_totals, sums_after, totals_added, with_shares};

use crate::leg_said::LegSaid;
use dialect::{Coded, Plain, Spelling, Split4};
use leg::{LegId, Totals};
use std::alloc::{AllocError, Global};
use std::collections::BTreeMap;

/// The shares of a sweep's legs, and what became of them. The sums stop at the greatest number of 64 bits.
#[derive(Clone, Copy, Debug, PartialEq, Eq)]
pub struct SweepTotals {
    pub shares: u64,
    pub totals: Totals,
}

/// The leg that a ClOrdID (11) names, in the spelling of any dialect.
pub fn leg_id_in(id: &[u8]) -> Option<LegId>
    ensures { result ≡ leg_id_in id.now }
{
    if let Some(id) = Plain.read_id(id) {
        return Some(id);
    }
    match Split4.read_id(id) {
        Some(id) => Some(id),
        None => Coded.read_id(id),
    }
}

fn totals_added(a: &Totals, b: &Totals) -> Totals
    ensures { result ≡ totals_added a.now b.now }
{
    Totals {
        filled: a.filled.saturating_add(b.filled),
        busted: a.busted.saturating_add(b.busted),
        cancelled: a.cancelled.saturating_add(b.cancelled),
        withdrawn: a.withdrawn.saturating_add(b.withdrawn),
        still_open: a.still_open.saturating_add(b.still_open),
    }
}

impl SweepTotals {
    /// Of no leg.
    pub fn none() -> SweepTotals
        ensures { result ≡ no_totals }
    {
        SweepTotals {
            shares: 0,
            totals: Totals {
                filled: 0,
                busted: 0,
                cancelled: 0,
                withdrawn: 0,
                still_open: 0,
            },
        }
    }

    /// With one more leg, of so many shares, of which this became.
    pub fn with(&self, shares: u64, totals: &Totals) -> SweepTotals
        ensures { result ≡ with_shares shares totals.now self.now }
    {
        SweepTotals {
            shares: self.shares.saturating_add(shares),
            totals: totals_added(&self.totals, totals),
        }
    }
}

/// The sums of sweeps, by their numbers.
#[derive(Debug, Drop)]
pub struct SweepSums {
    pub by_number: BTreeMap<u64, SweepTotals>,
}

impl SweepSums {
    pub fn new(alloc: Global) -> SweepSums
        ensures { result.by_number.entries ≡ [] }
    {
        SweepSums {
            by_number: BTreeMap::new(alloc),
        }
    }

    /// One more order, which counts where its ClOrdID (11) names a leg. Where memory is refused, nothing changes.
    pub fn add(&mut self, leg: &LegSaid<'_>) -> Result<(), AllocError>
        ensures ok { OnOk result (self.new.by_number.entries ≡ sums_after leg.now self.old.by_number.entries) }
        ensures err { OnErr result (self.new.by_number.entries ≡ self.old.by_number.entries) }
    {
        let Some(id) = leg_id_in(leg.id.as_bytes()) else {
            return Ok(());
        };
        let sums = match self.by_number.get(&id.sweep()) {
            Some(sums) => sums.with(leg.shares, &leg.totals),
            None => SweepTotals::none().with(leg.shares, &leg.totals),
        };
        self.by_number.insert(id.sweep(), sums)?;
        Ok(())
    }
}
