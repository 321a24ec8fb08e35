//! What legs come to.

ghost use Rattle.std.specs.Prelude.{◌≡◌, ◌*◌, ◌≤◌, ◌^◌, length};
ghost use Rattle.order_limits.specs.Money.{leg_money, sweep_money};

use crate::dollars::Dollars;
use leg::Routed;

/// What a leg comes to at its limit price: less than 10^12 dollars, as it has at most 1,000,000 shares at 999,999.9999
/// dollars.
pub(crate) fn leg_money(leg: &Routed) -> Dollars
    ensures value { result ≡ leg_money leg.now }
    ensures within { result.ten_thousandths ≤ 10 ^ 16 }
{
    Dollars {
        ten_thousandths: u128::from(leg.terms.shares()) * u128::from(leg.terms.price()),
    }
}

/// What a sweep of these legs comes to at their limit prices.
pub(crate) fn sweep_money(legs: &[Routed]) -> Dollars
    ensures value { result ≡ sweep_money legs.now }
    ensures within { result.ten_thousandths ≤ 10 ^ 16 * length legs.now }
    ensures few { result.ten_thousandths ≤ 10 ^ 36 }
{
    let mut sum = 0;
    for leg in legs {
        sum += leg_money(leg).ten_thousandths;
    }
    Dollars {
        ten_thousandths: sum,
    }
}
