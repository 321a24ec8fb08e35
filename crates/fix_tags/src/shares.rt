//! Counts of shares.

ghost use Rattle.std.specs.Prelude.{◌≡◌};
ghost use Rattle.fix_tags.specs.Shares.{is_no_part, shares_of};

use crate::digits::{leading_number, only_zeros};

const MAX_SHARES: u64 = 999_999_999;

/// Whether what follows the whole shares is no part of one.
#[inline]
fn is_no_part(rest: &[u8]) -> bool
    ensures { result ≡ is_no_part rest.now }
{
    match rest {
        [] => true,
        [b'.', zeros @ ..] => only_zeros(zeros),
        _ => false,
    }
}

/// Reads whole shares up to 999,999,999, with or without a point and zeros (FIX 4.4 Volume 1, data type Qty).
/// They are written by `write_number`.
#[inline(always)]
#[inline]
#[tactic(auto, unfolding(crate::specs::Shares::shares_of))]
pub fn read_shares(bytes: &[u8]) -> Option<u64>
    ensures { result ≡ shares_of bytes.now }
{
    let (shares, rest) = leading_number(bytes);
    if rest.len() == bytes.len() || !is_no_part(rest) || shares > MAX_SHARES {
        return None;
    }
    Some(shares)
}
