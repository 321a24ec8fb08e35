//! Places in a list, by numbers.

ghost use Rattle.std.specs.Prelude.{◌≡◌, ℕ, ◌==◌, Some, None, OnOk, OnErr, if◌then◌else◌};
ghost use Rattle.log_rules.specs.Places.{HasPlaceIn, first_kept, number_place};

use std::alloc::{AllocError, Global};
use std::collections::BTreeMap;

/// Places in a list, each by a number.
#[derive(Debug, Drop)]
pub(crate) struct NumberPlaces {
    by_number: BTreeMap<u64, usize>,
}

impl NumberPlaces {
    pub(crate) fn new(alloc: Global) -> NumberPlaces
        ensures { (number : ℕ) → number_place result number ≡ None }
    {
        NumberPlaces {
            by_number: BTreeMap::new(alloc),
        }
    }

    /// The place that is kept under a number.
    pub(crate) fn get(&self, number: u64) -> Option<usize>
        ensures { result ≡ number_place self.now number }
    {
        self.by_number.get(&number).copied()
    }

    /// Whether a place is kept under a number of a range.
    pub(crate) fn has_in(&self, from: u64, to: u64) -> bool
        ensures { HasPlaceIn self.now from to result }
    {
        from <= to && self.by_number.range(from..to).next().is_some()
    }

    /// Keeps a place under a number, in place of what was kept there.
    pub(crate) fn set(&mut self, number: u64, place: usize) -> Result<(), AllocError>
        ensures ok { OnOk result ((other : ℕ) → number_place self.new other
            ≡ (if number == other then Some place else number_place self.old other)) }
        ensures err { OnErr result ((other : ℕ) → number_place self.new other ≡ number_place self.old other) }
    {
        self.by_number.insert(number, place)?;
        Ok(())
    }

    /// Keeps a place under a number, unless one is kept there.
    pub(crate) fn keep(&mut self, number: u64, place: usize) -> Result<(), AllocError>
        ensures ok { OnOk result ((other : ℕ) → number_place self.new other
            ≡ first_kept (number == other) place (number_place self.old other)) }
        ensures err { OnErr result ((other : ℕ) → number_place self.new other ≡ number_place self.old other) }
    {
        if self.get(number).is_none() {
            self.by_number.insert(number, place)?;
        }
        Ok(())
    }
}
