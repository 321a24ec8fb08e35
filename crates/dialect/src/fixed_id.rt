//! A leg's number in two numbers of a fixed width.

ghost use Rattle.std.specs.Prelude.{◌≡◌, ◌≤◌};
ghost use Rattle.dialect.specs.FixedId.{fixed_id_of};

use crate::digits::read_fixed;
use leg::{LegId, MAX_PLACE, MAX_SWEEP};

/// How many digits a place has.
pub(crate) const PLACE_DIGITS: usize = 2;

/// Reads a sweep's number in digits of a base, this many, and a place in two.
pub(crate) fn read_fixed_id(base: u64, width: usize, sweep: &[u8], place: &[u8]) -> Option<LegId>
    requires low { 1 ≤ base }
    requires high { base ≤ 16 }
    ensures { result ≡ fixed_id_of base width sweep.now place.now }
{
    let sweep = read_fixed(base, width, MAX_SWEEP, sweep)?;
    let place = read_fixed(base, PLACE_DIGITS, u64::from(MAX_PLACE), place)?;
    Some(LegId::new(sweep, place as u8))
}
