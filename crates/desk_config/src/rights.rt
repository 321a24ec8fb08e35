//! What a user may do: the array `may` of a `[[user]]`.

ghost use Rattle.std.specs.Prelude.{◌≡◌, ◌<◌};
ghost use Rattle.desk_config.specs.Rights.{has_right, may_items, next_right, no_rights, right_at, right_in, right_named};
ghost use Rattle.desk_config.specs.Rights.{rights_by, rights_in, with_right};
ghost use Rattle.desk_config.specs.Venues.{result_map};
ghost use Rattle.toml.specs.View.{array_view, view};

use crate::address_keys::item_at;
use crate::fault::Fault;
use crate::found::Found;
use crate::key::Key;
use crate::user::Rights;
use toml::Value;
use toml::value::Array;

/// The most things that a user may do.
const MAX_RIGHTS: usize = 4;

/// One thing that a user may do.
#[derive(Clone, Copy, Debug, PartialEq, Eq)]
pub(crate) enum Right {
    Read,
    Trade,
    Close,
    Halt,
}

fn right_named(name: &str) -> Option<Right>
    ensures { result ≡ right_named name.now }
{
    match name {
        "read" => Some(Right::Read),
        "trade" => Some(Right::Trade),
        "close" => Some(Right::Close),
        "halt" => Some(Right::Halt),
        _ => None,
    }
}

fn right_in(value: &Value) -> Option<Right>
    ensures { result ≡ right_in (view value.now) }
{
    right_named(value.as_str()?)
}

/// Nothing.
fn no_rights() -> Rights
    ensures { result ≡ no_rights }
{
    Rights {
        read: false,
        trade: false,
        close: false,
        halt: false,
    }
}

fn has_right(rights: Rights, right: Right) -> bool
    ensures { result ≡ has_right rights right }
{
    match right {
        Right::Read => rights.read,
        Right::Trade => rights.trade,
        Right::Close => rights.close,
        Right::Halt => rights.halt,
    }
}

fn with_right(rights: Rights, right: Right) -> Rights
    ensures { result ≡ with_right rights right }
{
    let mut more = rights;
    match right {
        Right::Read => more.read = true,
        Right::Trade => more.trade = true,
        Right::Close => more.close = true,
        Right::Halt => more.halt = true,
    }
    more
}

/// With what a value names, which nothing before it does.
fn next_right(rights: Rights, number: usize, value: &Value) -> Result<Rights, Fault>
    ensures { result ≡ next_right rights number (view value.now) }
{
    let Some(right) = right_in(value) else {
        return Err(Fault::Right {
            number,
            found: Found::of(value),
        });
    };
    if has_right(rights, right) {
        return Err(Fault::RightTwice {
            number,
            found: Found::of(value),
        });
    }
    Ok(with_right(rights, right))
}

/// With what the value at an index, from 0, names, if there is one.
#[tactic(auto, unfolding(crate::specs::Rights::right_at))]
fn right_at(rights: Rights, values: &Array, index: usize) -> Result<Rights, Fault>
    requires { index < 4 }
    ensures { result ≡ right_at rights (array_view values.now) index }
{
    match item_at(values, index) {
        Some(value) => next_right(rights, index + 1, value),
        None => Ok(rights),
    }
}

/// The values of `may`, 1 to 4.
#[tactic(auto, using(crate::proofs::Views::items_count_view), unfolding(crate::specs::Rights::may_items))]
fn may_items(value: &Value) -> Result<&Array, Fault>
    ensures { may_items (view value.now) ≡ (result_map (λ items. array_view items.now) result) }
{
    match value.as_array() {
        Some(items) if !items.is_empty() && items.len() <= MAX_RIGHTS => Ok(items),
        _ => Err(Fault::Bad {
            key: Key::May,
            found: Found::of(value),
        }),
    }
}

/// What the values of `may` name.
#[tactic(auto, unfolding(crate::specs::Rights::rights_by))]
fn rights_by(value: &Value) -> Result<Rights, Fault>
    ensures { result ≡ rights_by (view value.now) }
{
    let values = may_items(value)?;
    let one = right_at(no_rights(), values, 0)?;
    let two = right_at(one, values, 1)?;
    let three = right_at(two, values, 2)?;
    right_at(three, values, 3)
}

/// What a user may do.
#[tactic(auto, unfolding(crate::specs::Rights::rights_in))]
pub(crate) fn rights_in(table: &Value) -> Result<Rights, Fault>
    ensures { result ≡ rights_in (view table.now) }
{
    match table.get(Key::May.name()) {
        Some(value) => rights_by(value),
        None => Err(Fault::Missing(Key::May)),
    }
}
