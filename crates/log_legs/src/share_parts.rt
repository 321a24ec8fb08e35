//! What became of an order's shares by the reports on it.

ghost use Rattle.std.specs.Prelude.{◌≡◌, ◌==◌, nat_le};
ghost use Rattle.log_legs.specs.Parts.{all_open, busted, ended, moved, parts_sum, totals_of, traded};

use crate::share_move::Move;
use leg::Totals;
use std::marker::Model;

/// What became of an order's shares by the reports on it. The four parts add up to them, whatever is reported.
#[derive(Clone, Copy, Debug, PartialEq, Eq)]
pub(crate) struct ShareParts {
    filled: u64,
    busted: u64,
    cancelled: u64,
    still_open: u64,
}

impl Model for ShareParts {
    ghost use Rattle.log_legs.specs.Parts as parts;

    ghost Value = { parts.ShareParts };

    ghost view = { λ p. record {
      filled = p.filled;
      busted = p.busted;
      cancelled = p.cancelled;
      still_open = p.still_open;
    } };

    ghost invariant = { λ p. parts.IsParts (record {
      filled = p.filled;
      busted = p.busted;
      cancelled = p.cancelled;
      still_open = p.still_open;
    }) };

    ghost inverse = { λ p. record {
      filled = p.filled;
      busted = p.busted;
      cancelled = p.cancelled;
      still_open = p.still_open;
    } };
}

impl ShareParts {
    /// All shares are open.
    pub(crate) fn new(shares: u64) -> ShareParts
        ensures { result ≡ all_open shares }
    {
        ShareParts {
            filled: 0,
            busted: 0,
            cancelled: 0,
            still_open: shares,
        }
    }

    fn trade(&mut self, shares: u64)
        ensures { self.new ≡ traded shares self.old }
    {
        if shares <= self.still_open {
            self.still_open -= shares;
            self.filled += shares;
        }
    }

    fn bust(&mut self, shares: u64)
        ensures { self.new ≡ busted shares self.old }
    {
        if shares <= self.filled {
            self.filled -= shares;
            self.busted += shares;
        }
    }

    fn end(&mut self)
        ensures { self.new ≡ ended self.old }
    {
        self.cancelled += self.still_open;
        self.still_open = 0;
    }

    /// What a report does. A trade of more shares than are open, and a bust of more than are filled, moves none.
    pub(crate) fn apply(&mut self, change: Move)
        ensures moved { self.new ≡ moved change self.old }
        ensures kept { parts_sum self.new ≡ parts_sum self.old }
    {
        match change {
            Move::Tells => {}
            Move::Trades(shares) => self.trade(shares),
            Move::Ends => self.end(),
            Move::Busts(shares) => self.bust(shares),
        }
    }

    /// Whether so many shares are open.
    pub(crate) fn can_trade(&self, shares: u64) -> bool
        ensures { result ≡ nat_le shares self.now.still_open }
    {
        shares <= self.still_open
    }

    /// Whether so many shares are filled.
    pub(crate) fn can_bust(&self, shares: u64) -> bool
        ensures { result ≡ nat_le shares self.now.filled }
    {
        shares <= self.filled
    }

    /// Whether all of the order's shares are open.
    pub(crate) fn is_open(&self) -> bool
        ensures { result ≡ (self.now.still_open == parts_sum self.now) }
    {
        self.still_open == self.shares()
    }

    /// The order's shares.
    pub(crate) fn shares(&self) -> u64
        ensures { result ≡ parts_sum self.now }
    {
        self.filled + self.busted + self.cancelled + self.still_open
    }

    /// The five parts of the shares: of a withdrawn order what is open is withdrawn.
    pub(crate) fn totals(&self, is_withdrawn: bool) -> Totals
        ensures { result ≡ totals_of is_withdrawn self.now }
    {
        let (withdrawn, still_open) = if is_withdrawn {
            (self.still_open, 0)
        } else {
            (0, self.still_open)
        };
        Totals {
            filled: self.filled,
            busted: self.busted,
            cancelled: self.cancelled,
            withdrawn,
            still_open,
        }
    }
}
