//! Limits, and how a sweep is judged by them.

ghost use Rattle.std.specs.Prelude.{◌≡◌, ◌+◌, ◌*◌, ◌≤◌, ◌^◌, length, option_map, IfNone, IfOk};
ghost use Rattle.order_limits.specs.Day.{MayComeTo, MayComeToIf, judged, judged_if, with_sweep};
ghost use Rattle.order_limits.specs.Limits.{dollars_excess, dollars_limit, first_excess};
ghost use Rattle.order_limits.specs.Limits.{first_of, is_among, is_same_symbol, limits_of, no_limits, over_all};
ghost use Rattle.order_limits.specs.Limits.{over_day, over_in, over_sweep, shares_excess, shares_limit};
ghost use Rattle.order_limits.specs.Limits.{symbol_excess, tighter, unlimited};
ghost use Rattle.order_limits.specs.Money.{sweep_money};

use crate::dollars::Dollars;
use crate::money::{leg_money, sweep_money};
use crate::over::{Excess, Over};
use leg::{Routed, Symbol, VenueId};
use std::alloc::Global;
use std::marker::Model;

/// What a leg may have at most. None: as much as a leg can.
#[derive(Clone, Copy, Debug, PartialEq, Eq)]
pub struct LegLimits {
    pub shares: Option<u64>,
    /// At its limit price, in whole dollars.
    pub dollars: Option<u64>,
}

/// What orders may have at most. Dollars are whole, and those of legs at their limit prices. Contracts see lists.
#[derive(Debug, Drop)]
pub struct OrderLimits {
    /// What each leg may have.
    leg: LegLimits,
    /// What all legs of a sweep may come to.
    sweep_dollars: Option<u64>,
    /// What all sweeps that are placed this day may come to.
    day_dollars: Option<u64>,
    /// The symbols that may be ordered. Where there is none in it, any may.
    symbols: Vec<Symbol>,
    /// What a leg for a venue may have beside, each at the place that is the venue's number.
    venues: Vec<LegLimits>,
}

impl Model for OrderLimits {
    ghost use Rattle.order_limits.specs.Limits.{LimitParts};

    ghost Value = { LimitParts };

    ghost view = { λ limits. record {
      leg = limits.leg;
      sweep_dollars = limits.sweep_dollars;
      day_dollars = limits.day_dollars;
      symbols = limits.symbols.items;
      venues = limits.venues.items;
    } };
}

/// The lower of two limits, where there are any.
fn tighter(limit: Option<u64>, other: Option<u64>) -> Option<u64>
    ensures { result ≡ tighter limit other }
{
    match (limit, other) {
        (Some(limit), Some(other)) => Some(limit.min(other)),
        (Some(limit), None) => Some(limit),
        (None, other) => other,
    }
}

/// What a leg is over.
fn over_in(leg: &Routed, over: Over) -> Excess
    ensures { result ≡ over_in leg.now over }
{
    Excess {
        venue: Some(leg.venue),
        over,
    }
}

/// What the sweep as a whole is over.
fn over_all(over: Over) -> Excess
    ensures { result ≡ over_all over }
{
    Excess { venue: None, over }
}

/// The same symbol once more.
fn symbol_of(leg: &Routed) -> Symbol
    ensures { result ≡ leg.now.terms.symbol }
{
    leg.terms.symbol().clone().unwrap()
}

/// Whether two symbols are the same.
fn is_same_symbol(one: &Symbol, other: &Symbol) -> bool
    ensures { result ≡ is_same_symbol one.now other.now }
{
    one.root() == other.root() && one.suffix() == other.suffix()
}

/// Whether a symbol is one of these.
fn is_among(symbols: &[Symbol], symbol: &Symbol) -> bool
    ensures { result ≡ is_among symbols.now symbol.now }
{
    symbols.iter().any(|known| is_same_symbol(known, symbol))
}

impl LegLimits {
    /// None.
    pub fn none() -> LegLimits
        ensures { result ≡ unlimited }
    {
        LegLimits {
            shares: None,
            dollars: None,
        }
    }
}

impl OrderLimits {
    /// The limits of these parts.
    pub fn new(
        leg: LegLimits,
        sweep_dollars: Option<u64>,
        day_dollars: Option<u64>,
        symbols: Vec<Symbol>,
        venues: Vec<LegLimits>,
    ) -> OrderLimits
        ensures { result ≡ limits_of leg sweep_dollars day_dollars symbols.items venues.items }
    {
        OrderLimits {
            leg,
            sweep_dollars,
            day_dollars,
            symbols,
            venues,
        }
    }

    /// None.
    pub fn none(alloc: Global) -> OrderLimits
        ensures { result ≡ no_limits }
    {
        OrderLimits::new(
            LegLimits::none(),
            None,
            None,
            Vec::new(alloc),
            Vec::new(alloc),
        )
    }

    /// What a leg for a venue may have in shares: what the desk and the venue both allow.
    fn shares_limit(&self, venue: VenueId) -> Option<u64>
        ensures { result ≡ shares_limit self.now venue }
    {
        let own = self.venues.get(usize::from(venue.number()));
        tighter(self.leg.shares, own.and_then(|own| own.shares))
    }

    /// What a leg for a venue may have in dollars: what the desk and the venue both allow.
    fn dollars_limit(&self, venue: VenueId) -> Option<u64>
        ensures { result ≡ dollars_limit self.now venue }
    {
        let own = self.venues.get(usize::from(venue.number()));
        tighter(self.leg.dollars, own.and_then(|own| own.dollars))
    }

    /// That a leg has too many shares.
    fn shares_excess(&self, leg: &Routed) -> Option<Excess>
        ensures { result ≡ shares_excess self.now leg.now }
    {
        let limit = self.shares_limit(leg.venue)?;
        let shares = leg.terms.shares();
        if shares <= limit {
            return None;
        }
        let symbol = symbol_of(leg);
        Some(over_in(
            leg,
            Over::LegShares {
                symbol,
                shares,
                limit,
            },
        ))
    }

    /// That a leg comes to too many dollars.
    fn dollars_excess(&self, leg: &Routed) -> Option<Excess>
        ensures { result ≡ dollars_excess self.now leg.now }
    {
        let limit = Dollars::of(self.dollars_limit(leg.venue)?);
        let dollars = leg_money(leg);
        if dollars.ten_thousandths <= limit.ten_thousandths {
            return None;
        }
        let symbol = symbol_of(leg);
        Some(over_in(
            leg,
            Over::LegDollars {
                symbol,
                dollars,
                limit,
            },
        ))
    }

    /// That a sweep comes to too many dollars.
    fn sweep_excess(&self, dollars: Dollars) -> Option<Excess>
        ensures { result ≡ over_sweep dollars self.now.sweep_dollars }
    {
        let limit = Dollars::of(self.sweep_dollars?);
        if dollars.ten_thousandths <= limit.ten_thousandths {
            return None;
        }
        Some(over_all(Over::SweepDollars { dollars, limit }))
    }

    /// That a day which comes to this is over its dollars.
    fn day_excess(&self, dollars: Dollars) -> Option<Excess>
        ensures value { result ≡ over_day dollars self.now.day_dollars }
        ensures within { IfNone result (MayComeTo self.now dollars) }
    {
        let limit = Dollars::of(self.day_dollars?);
        if dollars.ten_thousandths <= limit.ten_thousandths {
            return None;
        }
        Some(over_all(Over::DayDollars { dollars, limit }))
    }

    /// That the desk may not order a leg's symbol.
    fn symbol_excess(&self, leg: &Routed) -> Option<Excess>
        ensures { result ≡ symbol_excess self.now leg.now }
    {
        if self.symbols.is_empty() || is_among(self.symbols.as_slice(), leg.terms.symbol()) {
            return None;
        }
        let symbol = symbol_of(leg);
        Some(over_in(leg, Over::OtherSymbol { symbol }))
    }

    /// The first leg that has too many shares.
    fn first_by_shares(&self, legs: &[Routed]) -> Option<Excess>
        ensures { result ≡ first_of (shares_excess self.now) legs.now }
    {
        for leg in legs {
            if let Some(excess) = self.shares_excess(leg) {
                return Some(excess);
            }
        }
        None
    }

    /// The first leg that comes to too many dollars.
    fn first_by_dollars(&self, legs: &[Routed]) -> Option<Excess>
        ensures { result ≡ first_of (dollars_excess self.now) legs.now }
    {
        for leg in legs {
            if let Some(excess) = self.dollars_excess(leg) {
                return Some(excess);
            }
        }
        None
    }

    /// The first leg whose symbol the desk may not order.
    fn first_by_symbol(&self, legs: &[Routed]) -> Option<Excess>
        ensures { result ≡ first_of (symbol_excess self.now) legs.now }
    {
        for leg in legs {
            if let Some(excess) = self.symbol_excess(leg) {
                return Some(excess);
            }
        }
        None
    }

    /// The first limit that a sweep of these legs, which comes to this, is over on a day that comes to so much with it.
    #[tactic(auto, unfolding(crate::specs::Limits::first_excess))]
    fn first_excess(&self, day: Dollars, sweep: Dollars, legs: &[Routed]) -> Option<Excess>
        requires { sweep ≡ sweep_money legs.now }
        ensures value { result ≡ first_excess self.now day legs.now }
        ensures within { IfNone result (MayComeTo self.now day) }
    {
        if let Some(excess) = self.first_by_shares(legs) {
            return Some(excess);
        }
        if let Some(excess) = self.first_by_dollars(legs) {
            return Some(excess);
        }
        if let Some(excess) = self.sweep_excess(sweep) {
            return Some(excess);
        }
        if let Some(excess) = self.day_excess(day) {
            return Some(excess);
        }
        self.first_by_symbol(legs)
    }
    /// What a day of which so much is placed comes to with a sweep of these legs; or the first of these limits that it
    /// is over.
    fn judge(&self, placed: Dollars, sweep: Dollars, legs: &[Routed]) -> Result<Dollars, Excess>
        requires few { placed.ten_thousandths ≤ 10 ^ 36 }
        requires sweep { (sweep ≡ sweep_money legs.now) × (sweep.ten_thousandths ≤ 10 ^ 36) }
        ensures judged { result ≡ judged self.now placed legs.now }
        ensures sum { IfOk result (λ day. day ≡ with_sweep placed legs.now) }
        ensures within { IfOk result (MayComeTo self.now) }
    {
        let day = placed.plus(sweep);
        match self.first_excess(day, sweep, legs) {
            Some(excess) => Err(excess),
            None => Ok(day),
        }
    }
}

/// Judges a sweep of these legs by limits, if there are any, on a day of which so much is placed: what the day comes to
/// with it, or the first limit that it is over.
pub fn judge(
    limits: Option<&OrderLimits>,
    placed: Dollars,
    legs: &[Routed],
) -> Result<Dollars, Excess>
    requires few { placed.ten_thousandths ≤ 10 ^ 36 }
    ensures judged { result ≡ judged_if (option_map (λ l. l.now) limits.entry) placed legs.now }
    ensures sum { IfOk result (λ day. day ≡ with_sweep placed legs.now) }
    ensures within { IfOk result (MayComeToIf (option_map (λ l. l.now) limits.entry)) }
    ensures few { IfOk result (λ day. day.ten_thousandths ≤ placed.ten_thousandths + 10 ^ 16 * length legs.now) }
{
    let sweep = sweep_money(legs);
    match limits {
        Some(limits) => limits.judge(placed, sweep, legs),
        None => Ok(placed.plus(sweep)),
    }
}
