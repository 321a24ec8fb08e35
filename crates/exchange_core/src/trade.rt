//! A trade of an order.

use std::marker::Model;

/// A trade: its shares, the count in the ExecID of its report, and whether it was busted.
#[derive(Clone, Copy, Debug, PartialEq, Eq)]
pub struct Trade {
    pub shares: u64,
    pub exec: u64,
    pub is_busted: bool,
}

impl Model for Trade {
    ghost use Rattle.exchange_core.specs.Order.{TradeParts};

    ghost Value = { TradeParts };

    ghost view = { λ t. record { shares = t.shares; exec = t.exec; is_busted = t.is_busted } };

    ghost inverse = { λ parts. record { shares = parts.shares; exec = parts.exec; is_busted = parts.is_busted } };
}
