//! The terms of an order.

ghost use Rattle.std.specs.Prelude.{⊤, ◌≡◌};
ghost use Rattle.leg.specs.Terms.{terms_of};

use crate::{LegFault, Side, Symbol};
use std::alloc::AllocError;
use std::marker::Model;

/// The most shares of one leg.
pub const MAX_SHARES: u64 = 1_000_000;

/// The highest price, in ten-thousandths of a dollar: 999,999.9999 dollars.
pub const MAX_PRICE: u64 = 9_999_999_999;

/// What an order buys or sells, how many shares of it, and at what limit price: OrderQty (38) and Price (44) of a
/// NewOrderSingle, FIX 4.4 Volume 4.
#[derive(Debug, PartialEq, Eq, Drop)]
pub struct Terms {
    symbol: Symbol,
    side: Side,
    shares: u64,
    price: u64,
}

impl Model for Terms {
    ghost use Rattle.leg.specs.Terms.{TermsParts, IsTerms};

    ghost Value = { TermsParts };

    ghost view = { λ t. record {
      symbol = t.symbol;
      side = t.side;
      shares = t.shares;
      price = t.price;
    } };

    ghost invariant = { λ t. IsTerms (record {
      symbol = t.symbol;
      side = t.side;
      shares = t.shares;
      price = t.price;
    }) };

    ghost inverse = { λ parts. record {
      symbol = parts.symbol;
      side = parts.side;
      shares = parts.shares;
      price = parts.price;
    } };
}

impl Terms {
    ghost use Rattle.leg.specs.Terms.{IsTerms};

    /// L02 unless the shares are 1 to 1,000,000, and then L03 unless the price, in ten-thousandths of a dollar, is
    /// 1 to 9,999,999,999.
    pub fn new(symbol: Symbol, side: Side, shares: u64, price: u64) -> Result<Terms, LegFault>
        ensures { result ≡ terms_of symbol side shares price }
    {
        if shares < 1 || shares > MAX_SHARES {
            return Err(LegFault::BadShares);
        }
        if price < 1 || price > MAX_PRICE {
            return Err(LegFault::BadPrice);
        }
        // That the symbol is in range is known of a value that was read.
        let _ = symbol.root();
        Ok(Terms {
            symbol,
            side,
            shares,
            price,
        })
    }

    pub fn symbol(&self) -> &Symbol
        ensures value { result.now ≡ self.now.symbol }
        ensures in_range { IsTerms self.now }
    {
        &self.symbol
    }

    pub fn side(&self) -> Side
        ensures value { result ≡ self.now.side }
        ensures in_range { IsTerms self.now }
    {
        self.side
    }

    /// How many shares, 1 to 1,000,000.
    pub fn shares(&self) -> u64
        ensures value { result ≡ self.now.shares }
        ensures in_range { IsTerms self.now }
    {
        self.shares
    }

    /// The limit price in ten-thousandths of a dollar, 1 to 9,999,999,999.
    pub fn price(&self) -> u64
        ensures value { result ≡ self.now.price }
        ensures in_range { IsTerms self.now }
    {
        self.price
    }
}

/// A clone takes no memory and doesn't fail: it has the same terms.
impl Clone for Terms {
    ghost is_clone = { λ terms copy. copy ≡ terms };

    ghost is_infallible = { λ _. ⊤ };

    fn clone(&self) -> Result<Terms, AllocError> {
        Ok(Terms {
            symbol: self.symbol.clone()?,
            side: self.side,
            shares: self.shares,
            price: self.price,
        })
    }
}
