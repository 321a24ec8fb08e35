//! The addresses of a `[[venue]]`: `address`, or `addresses`.

ghost use Rattle.std.specs.Prelude.{◌≡◌, ◌<◌, option_map};
ghost use Rattle.desk_config.specs.Addresses.{address_at, dialled_by, dialled_in, few_values, item_at};
ghost use Rattle.desk_config.specs.Found.{found_of};
ghost use Rattle.desk_config.specs.Venues.{result_map};
ghost use Rattle.toml.specs.View.{array_view, view};

use crate::address::Address;
use crate::endpoint::Where;
use crate::fault::Fault;
use crate::found::Found;
use crate::from_value::FromValue;
use crate::key::Key;
use crate::value_at::value_at;
use crate::venue::MAX_BACKUPS;
use toml::Value;
use toml::value::Array;

/// The most addresses.
const MAX_ADDRESSES: usize = MAX_BACKUPS + 1;

/// Where a venue's exchange is, as the file names it, and where it is dialled instead.
#[derive(Debug, Drop)]
pub(crate) struct Dialled {
    pub place: Where,
    pub backups: [Option<Address>; MAX_BACKUPS],
}

/// The value at an index, from 0, if there is one.
pub(crate) fn item_at(values: &Array, index: usize) -> Option<&Value>
    ensures { option_map (λ value. view value.now) result ≡ item_at index (array_view values.now) }
{
    values.get(index)
}

/// The address at an index, from 0, if there are so many.
#[tactic(auto, unfolding(crate::specs::Addresses::address_at))]
fn address_at(values: &Array, index: usize) -> Result<Option<Address>, Fault>
    requires { index < 4 }
    ensures { result ≡ address_at (array_view values.now) index }
{
    let Some(value) = item_at(values, index) else {
        return Ok(None);
    };
    match Address::from_value(value) {
        Some(address) => Ok(Some(address)),
        None => Err(Fault::Address {
            number: index + 1,
            found: Found::of(value),
        }),
    }
}

/// The values of `addresses`, at most 4.
#[tactic(auto, using(crate::proofs::Views::items_count_view), unfolding(crate::specs::Addresses::few_values))]
fn few_values(value: &Value) -> Result<&Array, Fault>
    ensures { few_values (view value.now) ≡ (result_map (λ items. array_view items.now) result) }
{
    match value.as_array() {
        Some(items) if !items.is_empty() && items.len() <= MAX_ADDRESSES => Ok(items),
        _ => Err(bad_addresses(value)),
    }
}

fn bad_addresses(value: &Value) -> Fault
    ensures { result ≡ Fault.Bad Key.Addresses (found_of (view value.now)) }
{
    Fault::Bad {
        key: Key::Addresses,
        found: Found::of(value),
    }
}

/// What `addresses` says: the first, and those behind it.
#[tactic(auto, unfolding(crate::specs::Addresses::dialled_by))]
fn dialled_by(value: &Value) -> Result<Dialled, Fault>
    ensures { result ≡ dialled_by (view value.now) }
{
    let values = few_values(value)?;
    let first = address_at(values, 0)?;
    let second = address_at(values, 1)?;
    let third = address_at(values, 2)?;
    let fourth = address_at(values, 3)?;
    match first {
        Some(address) => Ok(Dialled {
            place: Where::At(address),
            backups: [second, third, fourth],
        }),
        None => Err(bad_addresses(value)),
    }
}

/// Where a venue is dialled: `address`, or `addresses`, and not both.
#[tactic(auto, unfolding(crate::specs::Addresses::dialled_in))]
pub(crate) fn dialled_in(table: &Value) -> Result<Dialled, Fault>
    ensures { result ≡ dialled_in (view table.now) }
{
    let address: Option<Where> = value_at(table, Key::Address)?;
    match (address, table.get(Key::Addresses.name())) {
        (Some(place), None) => Ok(Dialled {
            place,
            backups: [None, None, None],
        }),
        (None, Some(value)) => dialled_by(value),
        (Some(_), Some(_)) => Err(Fault::TwoAddresses),
        (None, None) => Err(Fault::Missing(Key::Address)),
    }
}
