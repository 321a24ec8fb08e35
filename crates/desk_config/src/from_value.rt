//! What a value of the file stands for.

ghost use Rattle.std.specs.Prelude.{◌≡◌, Option, option_and_then};
ghost use Rattle.toml.specs.Data.{Data, as_bool, as_str};
ghost use Rattle.toml.specs.View.{view};
ghost use Rattle.desk_words.specs.Printable.{printable_of};
ghost use Rattle.desk_words.specs.VenueName.{venue_name_of};
ghost use Rattle.dialect.specs.DialectName.{dialect_named};
ghost use Rattle.fix_tags.specs.CompId.{comp_id_of};
ghost use Rattle.desk_config.specs.Address.{address_of};
ghost use Rattle.desk_config.specs.Endpoint.{where_of};
ghost use Rattle.desk_config.specs.Journal.{durable_named, pattern_of};
ghost use Rattle.desk_config.specs.Number.{number_within};
ghost use Rattle.desk_config.specs.User.{user_name_of};

use crate::address::Address;
use crate::endpoint::Where;
use crate::journal::{DayPattern, Durable};
use crate::user::UserName;
use crate::within::Within;
use desk_words::{Printable, VenueName};
use dialect::AnyDialect;
use fix_tags::CompId;
use toml::Value;

/// A type of values that the file spells.
pub(crate) trait FromValue: Sized {
    ghost reads: { Data → Option Self };

    /// What a value stands for, or none where it is of another type or out of range.
    fn from_value(value: &Value) -> Option<Self>
        ensures { result ≡ reads (view value.now) };
}

impl FromValue for bool {
    ghost reads = { as_bool };

    fn from_value(value: &Value) -> Option<bool> {
        value.as_bool()
    }
}

impl FromValue for VenueName {
    ghost reads = { λ given. option_and_then venue_name_of (as_str given) };

    fn from_value(value: &Value) -> Option<VenueName> {
        VenueName::new(value.as_str()?.as_bytes())
    }
}

impl FromValue for CompId {
    ghost reads = { λ given. option_and_then comp_id_of (as_str given) };

    fn from_value(value: &Value) -> Option<CompId> {
        CompId::new(value.as_str()?.as_bytes())
    }
}

impl FromValue for AnyDialect {
    ghost reads = { λ given. option_and_then dialect_named (as_str given) };

    fn from_value(value: &Value) -> Option<AnyDialect> {
        AnyDialect::named(value.as_str()?)
    }
}

impl FromValue for Address {
    ghost reads = { λ given. option_and_then address_of (as_str given) };

    fn from_value(value: &Value) -> Option<Address> {
        Address::new(value.as_str()?.as_bytes())
    }
}

impl<const N: usize> FromValue for Printable<N> {
    ghost reads = { λ given. option_and_then (printable_of N) (as_str given) };

    fn from_value(value: &Value) -> Option<Printable<N>> {
        Printable::new(value.as_str()?.as_bytes())
    }
}

impl FromValue for DayPattern {
    ghost reads = { λ given. option_and_then pattern_of (as_str given) };

    fn from_value(value: &Value) -> Option<DayPattern> {
        DayPattern::new(value.as_str()?)
    }
}

impl FromValue for Durable {
    ghost reads = { λ given. option_and_then durable_named (as_str given) };

    fn from_value(value: &Value) -> Option<Durable> {
        Durable::named(value.as_str()?)
    }
}

impl FromValue for Where {
    ghost reads = { λ given. option_and_then where_of (as_str given) };

    fn from_value(value: &Value) -> Option<Where> {
        Where::new(value.as_str()?)
    }
}

impl FromValue for UserName {
    ghost reads = { λ given. option_and_then user_name_of (as_str given) };

    fn from_value(value: &Value) -> Option<UserName> {
        UserName::new(value.as_str()?.as_bytes())
    }
}

impl<const LEAST: u64, const MOST: u64> FromValue for Within<LEAST, MOST> {
    ghost reads = { number_within LEAST MOST };

    fn from_value(value: &Value) -> Option<Within<LEAST, MOST>> {
        Within::new(u64::try_from(value.as_integer()?).ok()?)
    }
}
