//! The values of a table's keys.

ghost use Rattle.std.specs.Prelude.{◌≡◌};
ghost use Rattle.desk_config.specs.Reading.{checked, needed, value_at};
ghost use Rattle.toml.specs.View.{view};

use crate::fault::Fault;
use crate::found::Found;
use crate::from_value::FromValue;
use crate::key::Key;
use crate::keys::Keys;
use desk_words::shown;
use toml::Value;

/// The value of a key, or none where the table hasn't the key.
#[tactic(auto, unfolding(crate::specs::Reading::value_at))]
pub(crate) fn value_at<T: FromValue>(table: &Value, key: Key) -> Result<Option<T>, Fault>
    ensures { result ≡ value_at T.reads key (view table.now) }
{
    let Some(value) = table.get(key.name()) else {
        return Ok(None);
    };
    match T::from_value(value) {
        Some(read) => Ok(Some(read)),
        None => Err(Fault::Bad {
            key,
            found: Found::of(value),
        }),
    }
}

/// The value of a key that has to be there.
#[tactic(auto, unfolding(crate::specs::Reading::needed))]
pub(crate) fn needed<T: FromValue + Drop>(table: &Value, key: Key) -> Result<T, Fault>
    ensures { result ≡ needed T.reads key (view table.now) }
{
    match value_at(table, key)? {
        Some(value) => Ok(value),
        None => Err(Fault::Missing(key)),
    }
}

/// That a value is a table, with no key that it may not have.
#[tactic(auto, unfolding(crate::specs::Reading::checked))]
pub(crate) fn checked(value: &Value, keys: Keys) -> Result<(), Fault>
    ensures { result ≡ checked keys (view value.now) }
{
    let Some(table) = value.as_table() else {
        return Err(Fault::NoTable(Found::of(value)));
    };
    match keys.first_unknown(table) {
        Some(key) => Err(Fault::Unknown(shown(key.as_bytes()))),
        None => Ok(()),
    }
}
