//! What the page may be called beside its address.

ghost use Rattle.std.specs.Prelude.{◌≡◌, ◌<◌, ◌≤◌, [], length, option_and_then, option_map, IfOk};
ghost use Rattle.desk_config.specs.Hosts.{AnswersHosts, host_in, host_items, hosts_at, hosts_from, hosts_of, next_host};
ghost use Rattle.desk_config.specs.Venues.{result_map};
ghost use Rattle.toml.specs.View.{array_view, view};

use crate::address::read_host;
use crate::config::HostName;
use crate::fault::{ConfigFault, Fault, KeyFault};
use crate::found::Found;
use crate::key::Key;
use crate::place::Place;
use std::alloc::Global;
use toml::Value;
use toml::value::Array;

/// The most names.
const MAX_HOSTS: usize = 8;

fn host_in(value: &Value) -> Option<HostName>
    ensures { result ≡ host_in (view value.now) }
{
    read_host(value.as_str()?.as_bytes())
}

/// What the next value of `hosts` says.
#[tactic(auto, unfolding(crate::specs::Hosts::next_host))]
fn next_host(earlier: &[HostName], value: &Value) -> Result<HostName, KeyFault>
    requires { length earlier.now < 8 }
    ensures { result ≡ next_host earlier.now (view value.now) }
{
    match host_in(value) {
        Some(host) => Ok(host),
        None => Err(KeyFault {
            place: Place::Desk,
            fault: Fault::Host {
                number: earlier.len() + 1,
                found: Found::of(value),
            },
        }),
    }
}

/// The value of `hosts`, where `[desk]` has it.
fn hosts_at(file: &Value) -> Option<&Value>
    ensures { option_map (λ value. view value.now) result ≡ hosts_at (view file.now) }
{
    file.get("desk")?.get(Key::Hosts.name())
}

/// The values of `hosts`, 1 to 8, where a token or a user guards the day.
#[tactic(auto, using(crate::proofs::Views::items_count_view), unfolding(crate::specs::Hosts::host_items))]
fn host_items(is_guarded: bool, value: &Value) -> Result<&Array, Fault>
    ensures value { host_items is_guarded (view value.now) ≡ (result_map (λ items. array_view items.now) result) }
    ensures few { IfOk result (λ items. length items.now.items ≤ 8) }
{
    match value.as_array() {
        Some(items) if !items.is_empty() && items.len() <= MAX_HOSTS => {
            if is_guarded {
                Ok(items)
            } else {
                Err(Fault::HostsNeedToken)
            }
        }
        _ => Err(Fault::Bad {
            key: Key::Hosts,
            found: Found::of(value),
        }),
    }
}

/// What the values of `hosts` say.
#[tactic(auto, using(crate::proofs::HostsRead::host_steps), unfolding(crate::specs::Hosts::hosts_from))]
fn each_host(alloc: Global, values: &Array) -> Result<Vec<HostName>, ConfigFault>
    requires { length values.now.items ≤ 8 }
    ensures { AnswersHosts (hosts_from [] (array_view values.now)) result }
{
    let mut hosts = Vec::new(alloc);
    for value in values {
        match next_host(hosts.as_slice(), value) {
            Ok(host) => hosts.push(host)?,
            Err(fault) => return Err(ConfigFault::Key(fault)),
        }
    }
    Ok(hosts)
}

/// What `hosts` says, where a token or a user guards the day, or nothing does.
#[tactic(auto, unfolding(crate::specs::Hosts::hosts_of))]
pub(crate) fn read_hosts(
    alloc: Global,
    is_guarded: bool,
    file: &Value,
) -> Result<Vec<HostName>, ConfigFault>
    ensures { AnswersHosts (hosts_of is_guarded (view file.now)) result }
{
    let Some(value) = hosts_at(file) else {
        return Ok(Vec::new(alloc));
    };
    match host_items(is_guarded, value) {
        Ok(values) => each_host(alloc, values),
        Err(fault) => Err(ConfigFault::Key(KeyFault {
            place: Place::Desk,
            fault,
        })),
    }
}
