//! The day that `dispatch live` is asked to run.
ghost use Rattle.std.specs.Prelude.{◌≡◌, ◌≤◌, IfOk};
ghost use Rattle.live_load.specs.Day.{IsLivePlan};
ghost use Rattle.live_command.specs.LivePlan.{given, number_in, plan_of};

use crate::fault::CommandFault;
use crate::option::LiveOption;
use crate::options::Options;
use fix_tags::read_number;
use live_load::LivePlan;

/// The most venues.
const MAX_VENUES: u64 = 16;

/// The most callers.
const MAX_CALLERS: u64 = 64;

/// The most sweeps of a caller, messages before the cut, and turns.
const MAX_COUNT: u64 = 1_000_000;

fn number_of(text: &str, option: LiveOption, least: u64, most: u64) -> Result<u64, CommandFault>
    ensures value { result ≡ given option (number_in least most text.now) }
    ensures range { IfOk result (λ number. (least ≤ number) × (number ≤ most)) }
{
    match read_number(text.as_bytes()) {
        Some(number) if least <= number && number <= most => Ok(number),
        _ => Err(CommandFault::BadNumber(option)),
    }
}

/// The day that these options ask for. A value that is no number or isn't within its limits is a bad value, and the
/// first in the order of the options is named.
#[tactic(auto, unfolding(crate::specs::LivePlan::plan_of))]
pub fn plan_of(options: &Options<'_>) -> Result<LivePlan, CommandFault>
    ensures value { result ≡ plan_of options.now }
    ensures range { IfOk result IsLivePlan }
{
    let venues = number_of(options.venues, LiveOption::Venues, 1, MAX_VENUES)?;
    let callers = number_of(options.callers, LiveOption::Callers, 1, MAX_CALLERS)?;
    let sweeps = number_of(options.sweeps, LiveOption::Sweeps, 1, MAX_COUNT)?;
    let cut = number_of(options.cut, LiveOption::Cut, 0, MAX_COUNT)?;
    let turns = number_of(options.turns, LiveOption::Turns, 1, MAX_COUNT)?;
    Ok(LivePlan {
        venues: venues as u8,
        callers: callers as u8,
        sweeps,
        cut,
        turns,
        cuts_short: options.cuts_short,
    })
}
