//! The keys of a leg.

ghost use Rattle.std.specs.Prelude.{◌≡◌, Some};
ghost use Rattle.desk_json.specs.Key.{is_leg_key, key_text};

use std::fmt;

/// A key of a leg in JSON. Each leg has all five, in any order, and no other.
#[derive(Clone, Copy, Debug, PartialEq, Eq)]
pub enum Key {
    Venue,
    Symbol,
    Side,
    Shares,
    Price,
}

impl Key {
    /// The key as it stands in the JSON.
    pub fn text(self) -> &'static str
        ensures { result.now ≡ key_text self }
    {
        match self {
            Key::Venue => "venue",
            Key::Symbol => "symbol",
            Key::Side => "side",
            Key::Shares => "shares",
            Key::Price => "price",
        }
    }
}

impl fmt::Display for Key {
    ghost output = { λ key. Some (key_text key) };

    fn fmt<W: fmt::Write>(&self, f: &mut fmt::Formatter<W>) -> fmt::Result {
        let text = self.text();
        write!(f, "{text}")
    }
}

/// Whether a text is one of the five keys.
pub(crate) fn is_leg_key(key: &[u8]) -> bool
    ensures { result ≡ is_leg_key key.now }
{
    key == b"venue".as_slice()
        || key == b"symbol".as_slice()
        || key == b"side".as_slice()
        || key == b"shares".as_slice()
        || key == b"price".as_slice()
}
