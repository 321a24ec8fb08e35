//! Examples, which are computed when this crate is proved.

ghost use Rattle.std.specs.Prelude.{◌≡◌, []};
ghost use Rattle.leg_worth.specs.Rows.{two_trades, one_busted, one_unpriced};
ghost use Rattle.leg_worth.specs.Worth.{worth_in};

/// 60 shares at 10.25 and 40 at 10.2 come to 1,023 units; without the second they are 615. Of a trade whose price can't
/// be read the shares are counted alone.
#[tactic(auto, unfolding(exact_price::specs::Exact::exact_of))]
pub fn what_trades_come_to()
    ensures none { worth_in [] ≡ record { value = 0; unpriced = 0 } }
    ensures trades { worth_in two_trades ≡ record { value = 102_300_000_000; unpriced = 0 } }
    ensures busted { worth_in one_busted ≡ record { value = 61_500_000_000; unpriced = 0 } }
    ensures unpriced { worth_in one_unpriced ≡ record { value = 61_500_000_000; unpriced = 40 } }
{}
