//! The names of the firms that send and receive.

ghost use Rattle.std.specs.Prelude.{◌≡◌};
ghost use Rattle.fix_tags.specs.CompId.{is_comp_id, IsCompId, comp_id_of};

use arrayvec::ArrayVec;
use std::marker::Model;

/// The greatest length of a name.
const MAX_LEN: usize = 16;

/// Whether a text is 1 to 16 printable bytes, 0x21 to 0x7E.
#[inline]
pub fn is_comp_id(bytes: &[u8]) -> bool
    ensures { result ≡ is_comp_id bytes.now }
{
    !bytes.is_empty() && bytes.len() <= MAX_LEN && bytes.iter().all(|byte| byte.is_ascii_graphic())
}

/// The name of a firm, in the place of 16 bytes (FIX 4.4 Volume 2, SenderCompID and TargetCompID).
#[derive(Clone, Debug, PartialEq, Eq, Drop)]
pub struct CompId {
    bytes: ArrayVec<u8, MAX_LEN>,
}

impl Model for CompId {
    ghost use Rattle.std.specs.Prelude.{ℕ, List};
    ghost use Rattle.fix_tags.specs.CompId.{IsCompId};

    ghost Value = { List ℕ };

    ghost view = { λ id. id.bytes.items };

    ghost invariant = { λ id. IsCompId id.bytes.items };

    ghost inverse = { λ text. record { bytes = record { items = text } } };
}

impl CompId {
    /// The name, or none where the text is empty, longer than 16 bytes or has a byte outside 0x21 to 0x7E.
    pub fn new(text: &[u8]) -> Option<CompId>
        ensures { result ≡ comp_id_of text.now }
    {
        if !is_comp_id(text) {
            return None;
        }
        let mut bytes = ArrayVec::new();
        bytes.try_extend_from_slice(text).unwrap();
        Some(CompId { bytes })
    }

    /// The text of the name.
    #[inline]
    pub fn as_bytes(&self) -> &[u8]
        ensures value { result.now ≡ self.now }
        ensures within { IsCompId self.now }
    {
        self.bytes.as_slice()
    }
}
