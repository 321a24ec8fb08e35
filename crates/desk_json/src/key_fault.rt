//! What is wrong with a leg.

ghost use Rattle.std.specs.Prelude.{Some};
ghost use Rattle.desk_json.specs.Fault.{key_fault_text};

use crate::key::Key;
use std::fmt;
use sweep_text::Word;

/// What is wrong with a leg, of which the first fault is told: no object, a key that a leg doesn't have, a key that is
/// missing, and then the values from the venue to the price.
#[derive(Debug, PartialEq, Eq, Drop)]
pub enum KeyFault {
    /// The leg is no object.
    NoObject,
    /// A key that a leg doesn't have; of several the first by its bytes.
    Unknown(Word),
    Missing(Key),
    /// The venue, the symbol, the side or the price isn't a text.
    NotText(Key),
    /// The shares aren't a whole number from 0 on.
    NotNumber,
    /// No venue of the desk has this name.
    NoVenue(Word),
    BadSymbol(Word),
    /// The side is neither `buy` nor `sell`.
    BadSide(Word),
    /// The shares aren't 1 to 1,000,000.
    BadShares(u64),
    /// It is no price from 0.0001 to 999,999.9999 dollars.
    BadPrice(Word),
}

impl fmt::Display for KeyFault {
    ghost output = { λ fault. Some (key_fault_text fault) };

    fn fmt<W: fmt::Write>(&self, f: &mut fmt::Formatter<W>) -> fmt::Result {
        match self {
            KeyFault::NoObject => write!(f, "a leg is an object"),
            KeyFault::Unknown(key) => write!(f, "unknown key {key}"),
            KeyFault::Missing(key) => write!(f, "{key} is missing"),
            KeyFault::NotText(key) => write!(f, "{key} has to be text"),
            KeyFault::NotNumber => write!(f, "shares has to be a whole number"),
            KeyFault::NoVenue(word) => write!(f, "no venue {word}"),
            KeyFault::BadSymbol(word) => write!(f, "bad symbol {word}"),
            KeyFault::BadSide(word) => write!(f, "bad side {word}"),
            KeyFault::BadShares(shares) => write!(f, "bad shares {shares}"),
            KeyFault::BadPrice(word) => write!(f, "bad price {word}"),
        }
    }
}
