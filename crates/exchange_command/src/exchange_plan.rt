//! What `dispatch exchange` is asked to be.
ghost use Rattle.std.specs.Prelude.{◌≡◌, ◌≤◌, IfOk};
ghost use Rattle.dialect.specs.DialectName.{dialect_named};
ghost use Rattle.fix_tags.specs.CompId.{comp_id_of};
ghost use Rattle.exchange_command.specs.ExchangePlan.{given, number_in, plan_of};

use crate::fault::CommandFault;
use crate::option::ExchangeOption;
use crate::options::Options;
use dialect::AnyDialect;
use exchange_sim::Plan;
use fix_tags::{CompId, Config, read_number};
use leg::MAX_SHARES;

/// The last port.
const MAX_PORT: u64 = 65_535;

/// The most messages before a cut or a loss.
const MAX_COUNT: u64 = 1_000_000;

/// How often the exchange shows a sign of life, in seconds.
const HEART: u64 = 30;

/// The number that no message of the session has.
const MAX_NUMBER: u64 = 999_999_999;

/// A simulated exchange: where it listens, its end of the session, how it spells its messages, and what it does with
/// them.
#[derive(Debug, Drop)]
pub struct ExchangePlan {
    pub port: u16,
    pub config: Config,
    pub dialect: AnyDialect,
    pub dealing: Plan,
}

fn number_of(text: &str, option: ExchangeOption, least: u64, most: u64) -> Result<u64, CommandFault>
    ensures value { result ≡ given option (number_in least most text.now) }
    ensures range { IfOk result (λ number. (least ≤ number) × (number ≤ most)) }
{
    match read_number(text.as_bytes()) {
        Some(number) if least <= number && number <= most => Ok(number),
        _ => Err(CommandFault::BadValue(option)),
    }
}

fn comp_id_of(text: &str, option: ExchangeOption) -> Result<CompId, CommandFault>
    ensures { result ≡ given option (comp_id_of text.now) }
{
    CompId::new(text.as_bytes()).ok_or(CommandFault::BadValue(option))
}

fn dialect_of(text: &str) -> Result<AnyDialect, CommandFault>
    ensures { result ≡ given ExchangeOption.Dialect (dialect_named text.now) }
{
    AnyDialect::named(text).ok_or(CommandFault::BadValue(ExchangeOption::Dialect))
}

/// The exchange that these options ask for. A value that isn't of its form or within its limits is a bad value, and the
/// first in the order of the options is named.
#[tactic(auto, unfolding(crate::specs::ExchangePlan::plan_of))]
pub fn plan_of(options: &Options<'_>) -> Result<ExchangePlan, CommandFault>
    ensures { result ≡ plan_of options.now }
{
    let port = number_of(options.port, ExchangeOption::Port, 1, MAX_PORT)?;
    let me = comp_id_of(options.sender, ExchangeOption::Sender)?;
    let peer = comp_id_of(options.target, ExchangeOption::Target)?;
    let dialect = dialect_of(options.dialect)?;
    let fill = number_of(options.fill, ExchangeOption::Fill, 0, MAX_SHARES)?;
    let cut_after = number_of(options.cut, ExchangeOption::Cut, 0, MAX_COUNT)?;
    let lose = number_of(options.lose, ExchangeOption::Lose, 0, MAX_COUNT)?;
    Ok(ExchangePlan {
        port: port as u16,
        config: Config::new(me, peer, HEART, MAX_NUMBER).unwrap(),
        dialect,
        dealing: Plan {
            fill,
            cut_after,
            lose,
        },
    })
}
