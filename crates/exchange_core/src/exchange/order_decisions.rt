//! What an act is to do: decided before anything changes. None of this takes memory.

ghost use Rattle.std.specs.Prelude.{◌≡◌, ◌≤◌, IfOk};
ghost use Rattle.std.specs.Option.{option_map};
ghost use Rattle.leg.specs.Numbered.{numbered};
ghost use Rattle.dialect.specs.FreeText.{IsFreeText};
ghost use Rattle.exchange_core.specs.SentRecord.{has_numbers, next_exec};
ghost use Rattle.exchange_core.specs.Acts.{trade_answer, end_answer, bust_answer};
ghost use Rattle.exchange_core.specs.OrderDecision.{order_decided, IsFor};
ghost use Rattle.exchange_core.specs.Sound.{IsSound};

use super::Exchange;
use crate::ExchangeFault;
use crate::ending::Ending;
use crate::numbered_id::id_of_report;
use crate::order::Order;
use crate::order_decision::{OrderDecision, OrderStep};
use crate::trade::Trade;
use dialect::{Fill, LastPx, ReportKind};

impl Exchange {
    /// The order at a place, counted from 1.
    fn order_at(&self, place: usize) -> Option<&Order>
        ensures value { option_map (λ order. order.now) result ≡ numbered place self.now.orders }
        ensures sound { IsSound self.now }
    {
        let orders = self.orders.as_slice();
        match place.checked_sub(1) {
            None => None,
            Some(index) => orders.get(index),
        }
    }

    /// Whether so many own numbers are left below the one that no message may have.
    pub(super) fn has_numbers(&self, count: u64) -> bool
        requires { count ≤ 2 }
        ensures value { result ≡ has_numbers count self.now.config self.now.own }
        ensures sound { IsSound self.now }
    {
        self.own.len() as u64 + 1 + count <= self.config.max_number()
    }

    /// The count of the next report, this one included.
    pub(super) fn next_count(&self) -> u64
        ensures { result ≡ next_exec self.now.own }
    {
        self.reports.len() as u64 + 1
    }

    /// The decision of a trade of so many open shares at a price.
    pub(super) fn decide_trade(
        &self,
        place: usize,
        shares: u64,
        px: LastPx,
    ) -> Result<OrderDecision, ExchangeFault>
        ensures answer { trade_answer self.now place shares px ≡ order_decided self.now place result }
        ensures there { IfOk result (λ decision. IsFor self.now place decision.step) }
        ensures sound { IsSound self.now }
        ensures price { IfOk result (λ _. IsFreeText 20 px) }
    {
        // That the price is in range is known of one that was read.
        let _ = px.as_bytes();
        let Some(order) = self.order_at(place) else {
            return Err(ExchangeFault::NoSuchOrder);
        };
        let mut split = order.split();
        if split.still_open() == 0 {
            return Err(ExchangeFault::Done);
        }
        if shares == 0 || split.fill(shares).is_err() {
            return Err(ExchangeFault::TooManyShares);
        }
        if !self.has_numbers(1) {
            return Err(ExchangeFault::NumbersSpent);
        }
        let trade = Trade {
            shares,
            exec: self.next_count(),
            is_busted: false,
        };
        let fill = Fill::new(shares, px).unwrap();
        Ok(OrderDecision {
            split,
            step: OrderStep::Traded(trade),
            kind: ReportKind::Trade(fill),
        })
    }

    /// The decision of an order's end, which is reported as this kind.
    pub(super) fn decide_end(
        &self,
        place: usize,
        ending: Ending,
        kind: ReportKind,
    ) -> Result<OrderDecision, ExchangeFault>
        ensures answer { end_answer self.now place ending kind ≡ order_decided self.now place result }
        ensures there { IfOk result (λ decision. IsFor self.now place decision.step) }
        ensures sound { IsSound self.now }
    {
        let Some(order) = self.order_at(place) else {
            return Err(ExchangeFault::NoSuchOrder);
        };
        let mut split = order.split();
        if split.still_open() == 0 {
            return Err(ExchangeFault::Done);
        }
        if !self.has_numbers(1) {
            return Err(ExchangeFault::NumbersSpent);
        }
        split.cancel_rest();
        Ok(OrderDecision {
            split,
            step: OrderStep::Ended(ending),
            kind,
        })
    }

    /// The decision of the bust of a trade, by its place among the order's trades, counted from 1.
    pub(super) fn decide_bust(
        &self,
        place: usize,
        which: usize,
    ) -> Result<OrderDecision, ExchangeFault>
        ensures answer { bust_answer self.now place which ≡ order_decided self.now place result }
        ensures there { IfOk result (λ decision. IsFor self.now place decision.step) }
        ensures sound { IsSound self.now }
    {
        let Some(order) = self.order_at(place) else {
            return Err(ExchangeFault::NoSuchOrder);
        };
        match order.ended() {
            Some(Ending::ByCancel) => {}
            Some(Ending::ByReject) => return Err(ExchangeFault::NotCancelled),
            None => return Err(ExchangeFault::NotCancelled),
        }
        let Some(trade) = order.trade_at(which) else {
            return Err(ExchangeFault::NoSuchTrade);
        };
        let mut split = order.split();
        if trade.is_busted || split.bust(trade.shares).is_err() {
            return Err(ExchangeFault::NoSuchTrade);
        }
        if !self.has_numbers(1) {
            return Err(ExchangeFault::NumbersSpent);
        }
        let undone = Trade {
            is_busted: true,
            ..trade
        };
        Ok(OrderDecision {
            split,
            step: OrderStep::Busted {
                place: which,
                trade: undone,
            },
            kind: ReportKind::Bust {
                cancelled_id: id_of_report(trade.exec),
            },
        })
    }
}
