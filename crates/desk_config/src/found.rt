//! What stands where another value had to.

ghost use Rattle.std.specs.Prelude.{◌≡◌, ◌++◌, Some, codes};
ghost use Rattle.desk_config.specs.Found.{found_of, found_text, kind_text};
ghost use Rattle.toml.specs.View.{view};

use desk_words::{Printable, shown};
use std::fmt;
use toml::Value;

/// A text of the file as it is shown: cut at 40 bytes, bytes that aren't printable as `\xNN`.
pub type FoundText = Printable<40>;

/// A kind of value of which no more is said.
#[derive(Clone, Copy, Debug, PartialEq, Eq)]
pub enum Kind {
    Float,
    Date,
    Table,
}

impl fmt::Display for Kind {
    ghost output = { λ kind. Some (kind_text kind) };

    fn fmt<W: fmt::Write>(&self, f: &mut fmt::Formatter<W>) -> fmt::Result {
        match self {
            Kind::Float => write!(f, "a float"),
            Kind::Date => write!(f, "a date"),
            Kind::Table => write!(f, "a table"),
        }
    }
}

/// A value of the file, as a fault names it.
#[derive(Debug, PartialEq, Eq, Drop)]
pub enum Found {
    Text(FoundText),
    Number(i64),
    Flag(bool),
    /// An array of so many.
    Array(usize),
    Other(Kind),
}

impl Found {
    /// A value as a fault names it.
    #[tactic(auto, using(crate::proofs::Views::views))]
    pub(crate) fn of(value: &Value) -> Found
        ensures { result ≡ found_of (view value.now) }
    {
        match value {
            Value::String(text) => Found::Text(shown(text.as_bytes())),
            Value::Integer(number) => Found::Number(*number),
            Value::Float(_) => Found::Other(Kind::Float),
            Value::Boolean(flag) => Found::Flag(*flag),
            Value::Datetime(_) => Found::Other(Kind::Date),
            Value::Array(items) => Found::Array(items.len()),
            Value::Table(_) => Found::Other(Kind::Table),
        }
    }
}

impl fmt::Display for Found {
    ghost output = { λ found. Some (found_text found) };

    fn fmt<W: fmt::Write>(&self, f: &mut fmt::Formatter<W>) -> fmt::Result {
        match self {
            Found::Text(text) => write!(f, "\"{text}\""),
            Found::Number(number) => write!(f, "{number}"),
            Found::Flag(flag) => write!(f, "{flag}"),
            Found::Array(len) => write!(f, "an array of {len}"),
            Found::Other(kind) => write!(f, "{kind}"),
        }
    }
}
