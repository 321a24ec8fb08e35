//! The shares of one leg, in five parts.

ghost use Rattle.std.specs.Prelude.{◌≡◌, ◌≤◌};
ghost use Rattle.leg.specs.Split.{all_open, leg_shares, split_fill, split_cancel_rest, split_withdraw, split_bust};

use crate::{LegFault, MAX_SHARES};
use std::marker::Model;

/// What became of a leg's shares. The five parts add up to the leg's shares, whatever happens.
#[derive(Clone, Copy, Debug, PartialEq, Eq)]
pub struct Split {
    filled: u64,
    busted: u64,
    cancelled: u64,
    withdrawn: u64,
    still_open: u64,
}

impl Model for Split {
    ghost use Rattle.leg.specs.Split.{SplitParts, IsSplit};

    ghost Value = { SplitParts };

    ghost view = { λ s. record {
      filled = s.filled;
      busted = s.busted;
      cancelled = s.cancelled;
      withdrawn = s.withdrawn;
      still_open = s.still_open;
    } };

    ghost invariant = { λ s. IsSplit (record {
      filled = s.filled;
      busted = s.busted;
      cancelled = s.cancelled;
      withdrawn = s.withdrawn;
      still_open = s.still_open;
    }) };

    ghost inverse = { λ parts. record {
      filled = parts.filled;
      busted = parts.busted;
      cancelled = parts.cancelled;
      withdrawn = parts.withdrawn;
      still_open = parts.still_open;
    } };
}

impl Split {
    ghost use Rattle.leg.specs.Split.{IsSplit};

    /// A leg's shares, all still open.
    pub fn new(shares: u64) -> Split
        requires low { 1 ≤ shares }
        requires high { shares ≤ MAX_SHARES }
        ensures { result ≡ all_open shares }
    {
        Split {
            filled: 0,
            busted: 0,
            cancelled: 0,
            withdrawn: 0,
            still_open: shares,
        }
    }

    /// A trade of n open shares. L05 where fewer are open.
    pub fn fill(&mut self, n: u64) -> Result<(), LegFault>
        ensures step { (result, self.new) ≡ split_fill self.old n }
        ensures kept { leg_shares self.new ≡ leg_shares self.old }
    {
        if n > self.still_open {
            return Err(LegFault::Overfill);
        }
        self.still_open -= n;
        self.filled += n;
        Ok(())
    }

    /// The end of the order at its venue: what is open, if anything is, is cancelled.
    pub fn cancel_rest(&mut self)
        ensures step { self.new ≡ split_cancel_rest self.old }
        ensures kept { leg_shares self.new ≡ leg_shares self.old }
    {
        self.cancelled += self.still_open;
        self.still_open = 0;
    }

    /// The leg never reaches its venue. L06 unless all of its shares are still open.
    pub fn withdraw(&mut self) -> Result<(), LegFault>
        ensures step { (result, self.new) ≡ split_withdraw self.old }
        ensures kept { leg_shares self.new ≡ leg_shares self.old }
    {
        if self.still_open != self.shares() {
            return Err(LegFault::AlreadyMoved);
        }
        self.withdrawn = self.still_open;
        self.still_open = 0;
        Ok(())
    }

    /// The bust of a trade of n shares, which are never open again. L07 where fewer are filled.
    pub fn bust(&mut self, n: u64) -> Result<(), LegFault>
        ensures step { (result, self.new) ≡ split_bust self.old n }
        ensures kept { leg_shares self.new ≡ leg_shares self.old }
    {
        if n > self.filled {
            return Err(LegFault::NotFilled);
        }
        self.filled -= n;
        self.busted += n;
        Ok(())
    }

    /// The leg's shares: the sum of the five parts.
    pub fn shares(&self) -> u64
        ensures value { result ≡ leg_shares self.now }
        ensures in_range { IsSplit self.now }
    {
        self.filled + self.busted + self.cancelled + self.withdrawn + self.still_open
    }

    pub fn filled(&self) -> u64
        ensures value { result ≡ self.now.filled }
        ensures in_range { IsSplit self.now }
    {
        self.filled
    }

    pub fn busted(&self) -> u64
        ensures value { result ≡ self.now.busted }
        ensures in_range { IsSplit self.now }
    {
        self.busted
    }

    pub fn cancelled(&self) -> u64
        ensures value { result ≡ self.now.cancelled }
        ensures in_range { IsSplit self.now }
    {
        self.cancelled
    }

    pub fn withdrawn(&self) -> u64
        ensures value { result ≡ self.now.withdrawn }
        ensures in_range { IsSplit self.now }
    {
        self.withdrawn
    }

    pub fn still_open(&self) -> u64
        ensures value { result ≡ self.now.still_open }
        ensures in_range { IsSplit self.now }
    {
        self.still_open
    }
}
