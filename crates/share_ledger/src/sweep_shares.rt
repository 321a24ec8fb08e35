//! The shares of a sweep.

ghost use Rattle.std.specs.Prelude.{◌≡◌, ◌≤◌, length};
ghost use Rattle.share_ledger.specs.Entries.{sweep_shares};

use leg::Routed;

/// The shares of a sweep's legs, of which there are at most 32: at most 32,000,000 shares.
pub fn shares_of(legs: &[Routed]) -> u64
    requires { length legs.now ≤ 32 }
    ensures value { result ≡ sweep_shares legs.now }
    ensures few { result ≤ 32000000 }
{
    let mut shares = 0;
    for routed in legs {
        shares += routed.terms.shares();
    }
    shares
}
