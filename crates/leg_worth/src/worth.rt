//! What was paid in trades.

ghost use Rattle.std.specs.Prelude.{◌≡◌, ◌+◌, ◌≤◌, ◌<◌, ◌^◌};
ghost use Rattle.leg_worth.specs.Worth.{paid, unpriced, both, capped};
ghost use Rattle.leg_worth.specs.Kept.{with_trade, without_trade};

use dialect::Fill;
use exact_price::read_exact;

/// What was paid in trades that no bust names, in hundred-millionths (10^-8) of the currency's unit, and for how many
/// of their shares no price is known, since it couldn't be read exactly: they count nothing in the value.
#[derive(Clone, Copy, Debug, PartialEq, Eq)]
pub struct Worth {
    pub value: u128,
    pub unpriced: u64,
}

/// What was paid in one trade, and its shares if its price can't be read exactly.
fn worth_of(fill: &Fill) -> Worth
    ensures value { result ≡ record { value = paid fill.now; unpriced = unpriced fill.now } }
    ensures within { result.value ≤ 10 ^ 24 }
    ensures few { result.unpriced ≤ 1_000_000 }
{
    let shares = fill.shares();
    match read_exact(fill.px().as_bytes()) {
        Some(price) => Worth {
            value: u128::from(shares) * u128::from(price),
            unpriced: 0,
        },
        None => Worth {
            value: 0,
            unpriced: shares,
        },
    }
}

impl Worth {
    /// With one trade more.
    pub(crate) fn with(self, fill: &Fill) -> Worth
        requires within { self.value ≤ 10 ^ 24 }
        requires few { self.unpriced ≤ 1_000_000 }
        ensures { result ≡ with_trade self fill.now }
    {
        let more = worth_of(fill);
        Worth {
            value: self.value + more.value,
            unpriced: self.unpriced + more.unpriced,
        }
    }

    /// What was paid in both, up to the greatest numbers of the types.
    pub(crate) fn and(self, other: Worth) -> Worth
        ensures { result ≡ capped (both self other) }
    {
        Worth {
            value: self.value.saturating_add(other.value),
            unpriced: self.unpriced.saturating_add(other.unpriced),
        }
    }

    /// Without a trade that is busted.
    pub(crate) fn without(self, fill: &Fill) -> Worth
        ensures { result ≡ without_trade self fill.now }
    {
        let less = worth_of(fill);
        Worth {
            value: self.value.saturating_sub(less.value),
            unpriced: self.unpriced.saturating_sub(less.unpriced),
        }
    }
}
