//! The name of a venue.

ghost use Rattle.std.specs.Prelude.{⊤, ◌≡◌, Some};
ghost use Rattle.std.specs.Bool.{OnTrue};
ghost use Rattle.std.specs.List.{All, list_all};
ghost use Rattle.desk_words.specs.VenueName.{IsNameByte, IsVenueName, is_name, is_name_byte, venue_name_of};

use arrayvec::ArrayVec;
use std::alloc::AllocError;
use std::marker::Model;
use std::{fmt, str};

/// The most bytes of a name.
pub const MAX_NAME: usize = 16;

/// What a venue is called in the desk's file, its lines and its logs: 1 to 16 of `A` to `Z`, `a` to `z`, `0` to `9`,
/// `_` and `-`.
#[derive(Debug, PartialEq, Eq, Drop)]
pub struct VenueName {
    text: ArrayVec<u8, MAX_NAME>,
}

impl Model for VenueName {
    ghost use Rattle.std.specs.Prelude.{ℕ, List};
    ghost use Rattle.desk_words.specs.VenueName.{IsVenueName};

    ghost Value = { List ℕ };

    ghost view = { λ name. name.text.items };

    ghost invariant = { λ name. IsVenueName name.text.items };

    ghost inverse = { λ text. record { text = record { items = text } } };
}

fn is_name_byte(byte: u8) -> bool
    ensures value { result ≡ is_name_byte byte }
    ensures meaning { OnTrue result (IsNameByte byte) }
{
    byte.is_ascii_alphanumeric() || byte == b'_' || byte == b'-'
}

fn are_name_bytes(text: &[u8]) -> bool
    ensures value { result ≡ list_all is_name_byte text.now }
    ensures meaning { OnTrue result (All IsNameByte text.now) }
{
    text.iter().all(|byte| is_name_byte(*byte))
}

/// Whether a text may be the name of a venue.
fn is_name(text: &[u8]) -> bool
    ensures value { result ≡ is_name text.now }
    ensures meaning { OnTrue result (IsVenueName text.now) }
{
    1 <= text.len() && text.len() <= MAX_NAME && are_name_bytes(text)
}

impl VenueName {
    ghost use Rattle.desk_words.specs.VenueName.{IsVenueName};

    /// The name that a text is, or none where it is empty, longer than 16 bytes or has another byte.
    pub fn new(text: &[u8]) -> Option<VenueName>
        ensures { result ≡ venue_name_of text.now }
    {
        if !is_name(text) {
            return None;
        }
        let text = ArrayVec::try_from(text).unwrap();
        Some(VenueName { text })
    }

    /// The bytes of the name, 1 to 16.
    pub fn as_bytes(&self) -> &[u8]
        ensures value { result.now ≡ self.now }
        ensures in_range { IsVenueName self.now }
    {
        self.text.as_slice()
    }

    /// The name as text.
    #[tactic(auto, using(crate::proofs::Ascii::utf8_of_name))]
    pub fn as_str(&self) -> &str
        ensures { result.now ≡ self.now }
    {
        str::from_utf8(self.as_bytes()).unwrap()
    }
}

/// A clone takes no memory and doesn't fail: it is the same name.
impl Clone for VenueName {
    ghost is_clone = { λ name copy. copy ≡ name };

    ghost is_infallible = { λ _. ⊤ };

    fn clone(&self) -> Result<VenueName, AllocError> {
        Ok(VenueName {
            text: self.text.clone()?,
        })
    }
}

impl fmt::Display for VenueName {
    ghost output = { λ name. Some name };

    fn fmt<W: fmt::Write>(&self, f: &mut fmt::Formatter<W>) -> fmt::Result {
        let text = self.as_str();
        write!(f, "{text}")
    }
}
