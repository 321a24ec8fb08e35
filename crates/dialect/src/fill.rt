//! A trade.

ghost use Rattle.std.specs.Prelude.{⊤, ◌≡◌};
ghost use Rattle.dialect.specs.Fill.{fill_of};

use crate::free_text::LastPx;
use leg::MAX_SHARES;
use std::alloc::AllocError;
use std::marker::Model;

/// A trade of an order's shares: LastQty (32) and LastPx (31) of an ExecutionReport, FIX 4.4 Volume 4.
#[derive(Debug, PartialEq, Eq, Drop)]
pub struct Fill {
    shares: u64,
    px: LastPx,
}

impl Model for Fill {
    ghost use Rattle.dialect.specs.Fill.{FillParts, IsFill};

    ghost Value = { FillParts };

    ghost view = { λ fill. record { shares = fill.shares; px = fill.px } };

    ghost invariant = { λ fill. IsFill (record { shares = fill.shares; px = fill.px }) };

    ghost inverse = { λ parts. record { shares = parts.shares; px = parts.px } };
}

impl Fill {
    ghost use Rattle.dialect.specs.Fill.{IsFill};

    /// The trade, or none unless the shares are 1 to 1,000,000.
    pub fn new(shares: u64, px: LastPx) -> Option<Fill>
        ensures { result ≡ fill_of shares px }
    {
        if shares < 1 || shares > MAX_SHARES {
            return None;
        }
        // That the price is in range is known of a value that was read.
        let _ = px.as_bytes();
        Some(Fill { shares, px })
    }

    /// How many shares, 1 to 1,000,000.
    pub fn shares(&self) -> u64
        ensures value { result ≡ self.now.shares }
        ensures in_range { IsFill self.now }
    {
        self.shares
    }

    /// The price, as the exchange spelled it.
    pub fn px(&self) -> &LastPx
        ensures value { result.now ≡ self.now.px }
        ensures in_range { IsFill self.now }
    {
        &self.px
    }
}

/// A clone takes no memory and doesn't fail: it is the same trade.
impl Clone for Fill {
    ghost is_clone = { λ fill copy. copy ≡ fill };

    ghost is_infallible = { λ _. ⊤ };

    fn clone(&self) -> Result<Fill, AllocError> {
        Ok(Fill {
            shares: self.shares,
            px: self.px.clone()?,
        })
    }
}
