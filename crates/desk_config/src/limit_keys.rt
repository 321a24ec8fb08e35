//! The keys of `[limits]`, and those of a `[[venue]]` that limit its legs.

ghost use Rattle.std.specs.Prelude.{◌≡◌};
ghost use Rattle.desk_config.specs.LimitKeys.{dollars_at, leg_limits_in, limits_in, limits_table, shares_at};
ghost use Rattle.toml.specs.View.{view};

use crate::fault::{Fault, KeyFault};
use crate::key::Key;
use crate::keys::Keys;
use crate::place::Place;
use crate::value_at::{checked, value_at};
use crate::within::Within;
use leg::MAX_SHARES;
use order_limits::LegLimits;
use toml::Value;

/// How many shares may be a limit.
type ShareLimit = Within<1, MAX_SHARES>;

/// How many whole dollars may be a limit.
type DollarLimit = Within<1, 1_000_000_000_000_000>;

/// What `[limits]` says, but for the symbols. None: there is no such limit.
#[derive(Clone, Copy, Debug, PartialEq, Eq)]
pub struct LimitsTable {
    /// What any leg may have.
    pub leg: LegLimits,
    /// In whole dollars.
    pub sweep_dollars: Option<u64>,
    /// In whole dollars.
    pub day_dollars: Option<u64>,
}

/// A leg's shares, if the table limits them.
fn shares_at(table: &Value) -> Result<Option<u64>, Fault>
    ensures { result ≡ shares_at (view table.now) }
{
    let limit: Option<ShareLimit> = value_at(table, Key::LegShares)?;
    match limit {
        Some(limit) => Ok(Some(limit.get())),
        None => Ok(None),
    }
}

/// A key's dollars, if the table has it.
fn dollars_at(table: &Value, key: Key) -> Result<Option<u64>, Fault>
    ensures { result ≡ dollars_at key (view table.now) }
{
    let limit: Option<DollarLimit> = value_at(table, key)?;
    match limit {
        Some(limit) => Ok(Some(limit.get())),
        None => Ok(None),
    }
}

/// What a leg may have, by the keys of a table.
#[tactic(auto, unfolding(crate::specs::LimitKeys::leg_limits_in))]
pub(crate) fn leg_limits_in(table: &Value) -> Result<LegLimits, Fault>
    ensures { result ≡ leg_limits_in (view table.now) }
{
    let shares = shares_at(table)?;
    let dollars = dollars_at(table, Key::LegDollars)?;
    Ok(LegLimits { shares, dollars })
}

#[tactic(auto, unfolding(crate::specs::LimitKeys::limits_table))]
fn limits_table(limits: &Value) -> Result<LimitsTable, Fault>
    ensures { result ≡ limits_table (view limits.now) }
{
    checked(limits, Keys::Limits)?;
    let leg = leg_limits_in(limits)?;
    let sweep_dollars = dollars_at(limits, Key::SweepDollars)?;
    let day_dollars = dollars_at(limits, Key::DayDollars)?;
    Ok(LimitsTable {
        leg,
        sweep_dollars,
        day_dollars,
    })
}

/// What a file's `[limits]` says, but for the symbols; a file without one limits nothing.
#[tactic(auto, unfolding(crate::specs::LimitKeys::limits_in))]
pub(crate) fn read_limits(file: &Value) -> Result<LimitsTable, KeyFault>
    ensures { result ≡ limits_in (view file.now) }
{
    let Some(limits) = file.get("limits") else {
        return Ok(LimitsTable {
            leg: LegLimits::none(),
            sweep_dollars: None,
            day_dollars: None,
        });
    };
    match limits_table(limits) {
        Ok(table) => Ok(table),
        Err(fault) => Err(KeyFault {
            place: Place::Limits,
            fault,
        }),
    }
}
