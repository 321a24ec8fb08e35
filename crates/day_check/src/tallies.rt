//! How often each rule was held and broken.
ghost use Rattle.std.specs.Prelude.{◌≡◌};
ghost use Rattle.day_check.specs.Tallies.{breaks_a_rule, tallied_upto};
ghost use Rattle.day_rules.specs.VenueDay.{breaks};

use log_rules::{Tally, Verdict};

/// Whether the rule at a place is broken, of the verdicts on all rules.
pub(crate) fn breaks(verdicts: &[Verdict; 22], place: usize) -> bool
    ensures { result ≡ breaks verdicts.now place }
{
    match verdicts.get(place) {
        Some(verdict) => *verdict == Verdict::Broken,
        None => false,
    }
}

/// Counts the verdicts of a line.
pub(crate) fn count(tallies: &mut [Tally; 22], verdicts: &[Verdict; 22])
    ensures { tallies.new ≡ tallied_upto 22 verdicts.now tallies.old }
{
    for place in 0..22 {
        tallies[place] = tallies[place].with(verdicts[place]);
    }
}

/// Whether a rule is broken.
pub(crate) fn breaks_a_rule(tallies: &[Tally; 22]) -> bool
    ensures { result ≡ breaks_a_rule tallies.now }
{
    tallies.iter().any(|tally| tally.broken > 0)
}
