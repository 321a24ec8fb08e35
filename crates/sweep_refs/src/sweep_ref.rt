//! What a caller calls a sweep.

ghost use Rattle.std.specs.Prelude.{⊤, ◌≡◌, Some, nat_eq};
ghost use Rattle.std.specs.Bool.{OnTrue};
ghost use Rattle.std.specs.Cmp.{partial_equiv_from_equiv};
ghost use Rattle.std.specs.Cmp.Lexicographic.{nat_list_eq_equiv};
ghost use Rattle.std.specs.Cmp.Rules.{hashing};
ghost use Rattle.std.specs.Hash as fed;
ghost use Rattle.std.specs.List.{All, list_all};
ghost use Rattle.std.specs.Str.{bytes_eq};
ghost use Rattle.std.proofs.Common.{rules};
ghost use Rattle.sweep_refs.specs.Ref.{IsRef, IsRefByte, is_ref, is_ref_byte, ref_of};

use arrayvec::ArrayVec;
use std::alloc::AllocError;
use std::hash::{Hash, Hasher};
use std::marker::Model;
use std::{fmt, str};

/// The most characters of a reference.
pub const MAX_REF: usize = 64;

/// What a caller calls a sweep: 1 to 64 bytes from 0x21 to 0x7E, so it has no space.
#[derive(Debug, Drop)]
pub struct SweepRef {
    text: ArrayVec<u8, MAX_REF>,
}

impl Model for SweepRef {
    ghost use Rattle.std.specs.Prelude.{ℕ, List};
    ghost use Rattle.sweep_refs.specs.Ref.{IsRef};

    ghost Value = { List ℕ };

    ghost view = { λ reference. reference.text.items };

    ghost invariant = { λ reference. IsRef reference.text.items };
}

fn is_ref_byte(byte: u8) -> bool
    ensures value { result ≡ is_ref_byte byte }
    ensures meaning { OnTrue result (IsRefByte byte) }
{
    b'!' <= byte && byte <= b'~'
}

fn are_ref_bytes(text: &[u8]) -> bool
    ensures value { result ≡ list_all is_ref_byte text.now }
    ensures meaning { OnTrue result (All IsRefByte text.now) }
{
    text.iter().all(|byte| is_ref_byte(*byte))
}

/// Whether a text may be a reference.
fn is_ref(text: &[u8]) -> bool
    ensures value { result ≡ is_ref text.now }
    ensures meaning { OnTrue result (IsRef text.now) }
{
    1 <= text.len() && text.len() <= MAX_REF && are_ref_bytes(text)
}

impl SweepRef {
    ghost use Rattle.sweep_refs.specs.Ref.{IsRef};

    /// The reference that a text is, or none where it is empty, longer than 64 bytes or has another byte.
    pub fn new(text: &[u8]) -> Option<SweepRef>
        ensures { result ≡ ref_of text.now }
    {
        if !is_ref(text) {
            return None;
        }
        let text = ArrayVec::try_from(text).unwrap();
        Some(SweepRef { text })
    }

    /// The bytes of the reference, 1 to 64.
    pub fn as_bytes(&self) -> &[u8]
        ensures value { result.now ≡ self.now }
        ensures in_range { IsRef self.now }
    {
        self.text.as_slice()
    }

    /// The reference as text.
    #[tactic(auto, using(crate::proofs::Ascii::utf8_of_ref))]
    pub fn as_str(&self) -> &str
        ensures { result.now ≡ self.now }
    {
        str::from_utf8(self.as_bytes()).unwrap()
    }
}

/// A clone takes no memory and doesn't fail: it is the same reference.
impl Clone for SweepRef {
    ghost is_clone = { λ reference copy. copy ≡ reference };

    ghost is_infallible = { λ _. ⊤ };

    fn clone(&self) -> Result<SweepRef, AllocError> {
        Ok(SweepRef {
            text: self.text.clone()?,
        })
    }
}

impl PartialEq for SweepRef {
    ghost eq = { bytes_eq };

    ghost laws = { partial_equiv_from_equiv nat_list_eq_equiv };

    fn eq(&self, other: &Self) -> bool {
        self.as_bytes() == other.as_bytes()
    }
}

impl Eq for SweepRef {
    ghost laws = { nat_list_eq_equiv };
}

impl Hash for SweepRef {
    ghost hash_input = { λ reference. fed.str reference };

    ghost respects_eq = { Prim.search (hashing, rules) };

    fn hash<H: Hasher>(&self, state: &mut H) {
        self.as_str().hash(state);
    }
}

impl fmt::Display for SweepRef {
    ghost output = { λ reference. Some reference };

    fn fmt<W: fmt::Write>(&self, f: &mut fmt::Formatter<W>) -> fmt::Result {
        let text = self.as_str();
        write!(f, "{text}")
    }
}
