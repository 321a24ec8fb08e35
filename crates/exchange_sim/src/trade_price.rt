//! The price of a trade.

ghost use Rattle.std.specs.Prelude.{◌≡◌};
ghost use Rattle.fix_tags.specs.Price.{price_short};

use dialect::LastPx;
use fix_tags::price_short_text;
use leg::Leg;

/// The leg's own limit price, as a trade's report tells it.
pub fn trade_price(leg: &Leg) -> LastPx
    ensures { result ≡ price_short leg.now.terms.price }
{
    let price = leg.terms.price();
    LastPx::new(price_short_text(price).as_slice()).unwrap()
}
