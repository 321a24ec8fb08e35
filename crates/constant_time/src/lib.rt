//! Two texts, compared in a time that tells nothing of where they differ.
//!
//! Promises:
//! - Two texts are the same exactly where all their bytes are (`is_same`). That the time depends on nothing but their
//!   lengths no clause says.
#![tactic(auto)]

ghost use Rattle.std.specs.Prelude.{◌≡◌, length};
ghost use Rattle.std.specs.Str.{bytes_eq};

/// Whether two texts of one length are the same: each byte is looked at, whatever the others are.
#[tactic(auto, using(crate::proofs::Same::one_more))]
fn is_same_throughout(one: &[u8], other: &[u8]) -> bool
    requires { length one.now ≡ length other.now }
    ensures { result ≡ bytes_eq one.now other.now }
{
    let mut is_same = true;
    for i in 0..one.len() {
        is_same &= one[i] == other[i];
    }
    is_same
}

/// Whether two texts are the same.
#[tactic(auto, using(crate::proofs::Same::other_length))]
pub fn is_same(one: &[u8], other: &[u8]) -> bool
    ensures { result ≡ bytes_eq one.now other.now }
{
    if one.len() != other.len() {
        return false;
    }
    is_same_throughout(one, other)
}
