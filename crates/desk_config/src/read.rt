//! A file's text, read.

ghost use Rattle.std.specs.Prelude.{IfOk};
ghost use Rattle.desk_config.specs.Apart.{AreVenues};
ghost use Rattle.desk_config.specs.Config.{Answers, AnswersText, config_in};
ghost use Rattle.toml.specs.View.{view};

use crate::config::DeskConfig;
use crate::desk_keys::read_desk;
use crate::fault::{ConfigFault, KeyFault};
use crate::hosts::read_hosts;
use crate::journal_name::apart_from_desk;
use crate::keys::Keys;
use crate::limit_keys::read_limits;
use crate::place::Place;
use crate::symbols::read_symbols;
use crate::user_keys::read_users;
use crate::value_at::checked;
use crate::venues::read_venues;
use std::alloc::Global;
use toml::Value;

/// The configuration that a file's table has.
#[tactic(auto, unfolding(crate::specs::Config::config_in))]
fn read_table(alloc: Global, file: &Value) -> Result<DeskConfig, ConfigFault>
    ensures says { Answers (config_in (view file.now)) result }
    ensures apart { IfOk result (λ config. AreVenues config.venues.items) }
{
    if let Err(fault) = checked(file, Keys::File) {
        return Err(ConfigFault::Key(KeyFault {
            place: Place::File,
            fault,
        }));
    }
    let desk = match read_desk(file) {
        Ok(desk) => desk,
        Err(fault) => return Err(ConfigFault::Key(fault)),
    };
    let is_guarded = file.get("user").is_some() || desk.doors.token.is_some();
    let hosts = read_hosts(alloc, is_guarded, file)?;
    let limits = match read_limits(file) {
        Ok(limits) => limits,
        Err(fault) => return Err(ConfigFault::Key(fault)),
    };
    let symbols = read_symbols(alloc, file)?;
    let venues = read_venues(alloc, &desk.sender, file)?;
    let users = read_users(alloc, file)?;
    if let Err(fault) = apart_from_desk(&desk.journal, venues.as_slice()) {
        return Err(ConfigFault::Key(KeyFault {
            place: Place::Desk,
            fault,
        }));
    }
    Ok(DeskConfig {
        callers: desk.callers,
        log: desk.log,
        journal: desk.journal,
        page: desk.doors.page,
        listen: desk.doors.listen,
        socket: desk.doors.socket,
        token: desk.doors.token,
        hosts,
        users,
        limits,
        symbols,
        label: desk.label,
        venues,
    })
}

/// The configuration that a file's text spells, or its first fault: first the TOML, then the keys of the file, those of
/// `[desk]`, those of `[limits]`, those of each `[[venue]]` in turn, and those of each `[[user]]`: by `sender`,
/// `callers`, `log`, `journal`, `durable`, `page`, `listen`, `socket`, `token`, `hosts`, `name`, `environment`; by
/// `leg_shares`, `leg_dollars`, `sweep_dollars`, `day_dollars`, `symbols`; by `name`, `address`, `addresses`, `fill`,
/// `target`, `sender`, `dialect`, `words` with `id`, `mark`, `price` and `symbol`, the fields of `order`, of `header`
/// and of `logon`, `password_file`, `heartbeat`, `next_expected`, `reopen`, `max_number`, `leg_shares`, `leg_dollars`;
/// and by `name`, `token`, `token_file`, `may`. In each table a key that it may not have comes first, and behind a
/// venue's or a user's own keys that it has the name, the session or the token of an earlier one. Last comes that a
/// venue is called as the desk's journal is.
#[tactic(auto, using(crate::proofs::TextRead::answers_text))]
pub fn read_config(alloc: Global, text: &str) -> Result<DeskConfig, ConfigFault>
    ensures says { AnswersText text.now result }
    ensures apart { IfOk result (λ config. AreVenues config.venues.items) }
{
    match toml::table_from_str(alloc, text) {
        Ok(table) => read_table(alloc, &Value::from(table)),
        Err(fault) => Err(ConfigFault::Toml(fault)),
    }
}
