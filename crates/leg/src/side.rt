//! The side of an order.

ghost use Rattle.std.specs.Prelude.{Some};
ghost use Rattle.leg.specs.Side.{side_text};

use std::fmt;

/// Whether the order buys or sells: tag 54 of FIX 4.4 Volume 4, NewOrderSingle.
#[derive(Clone, Copy, Debug, PartialEq, Eq)]
pub enum Side {
    Buy,
    Sell,
}

impl fmt::Display for Side {
    ghost output = { λ side. Some (side_text side) };

    fn fmt<W: fmt::Write>(&self, f: &mut fmt::Formatter<W>) -> fmt::Result {
        match self {
            Side::Buy => write!(f, "buy"),
            Side::Sell => write!(f, "sell"),
        }
    }
}
