//! An order that was accepted.

ghost use Rattle.std.specs.Prelude.{◌≡◌, ◌+◌, ◌≤◌, length, OnOk, OnErr};
ghost use Rattle.leg.specs.Numbered.{numbered};
ghost use Rattle.exchange_core.specs.Order.{new_order, view_of};
ghost use Rattle.exchange_core.specs.OrderDecision.{stepped, IsPlaced};

use crate::ending::Ending;
use crate::numbered_id::id_of_order;
use crate::order_decision::OrderStep;
use crate::trade::Trade;
use dialect::OrderView;
use leg::{Leg, Split};
use std::alloc::{AllocError, Global};
use std::marker::Model;

/// The order of a leg: what became of its shares, its trades in order, and what ended it if something did.
#[derive(Debug, Drop)]
pub struct Order {
    leg: Leg,
    split: Split,
    trades: Vec<Trade>,
    ended: Option<Ending>,
}

impl Model for Order {
    ghost use Rattle.exchange_core.specs.Order.{OrderParts};

    ghost Value = { OrderParts };

    ghost view = { λ order. record {
      leg = order.leg;
      split = order.split;
      trades = order.trades.items;
      ended = order.ended;
    } };
}

impl Order {
    /// The order of a leg, all open. It takes no memory.
    pub(crate) fn new(alloc: Global, leg: Leg) -> Order
        ensures { result ≡ new_order leg }
    {
        let split = Split::new(leg.terms.shares());
        Order {
            leg,
            split,
            trades: Vec::new(alloc),
            ended: None,
        }
    }

    /// A copy of its leg. It takes no memory.
    pub(crate) fn leg(&self) -> Leg
        ensures { result ≡ self.now.leg }
    {
        self.leg.clone().unwrap()
    }

    /// The order as its exchange sees it, at this place among those accepted.
    pub(crate) fn view(&self, place: u64) -> OrderView
        requires place { place ≤ 999999999 }
        requires within { self.now.split.filled + self.now.split.still_open ≤ self.now.leg.terms.shares }
        ensures { result ≡ view_of place self.now }
    {
        let split = self.split;
        OrderView::new(
            self.leg(),
            id_of_order(place),
            split.filled(),
            split.still_open(),
        )
        .unwrap()
    }

    /// What became of its shares.
    pub(crate) fn split(&self) -> Split
        ensures { result ≡ self.now.split }
    {
        self.split
    }

    /// What ended it, if something did.
    pub(crate) fn ended(&self) -> Option<Ending>
        ensures { result ≡ self.now.ended }
    {
        self.ended
    }

    /// The trade of a place, counted from 1.
    pub(crate) fn trade_at(&self, place: usize) -> Option<Trade>
        ensures { result ≡ numbered place self.now.trades }
    {
        let index = place.checked_sub(1)?;
        self.trades.get(index).copied()
    }

    /// Takes a step, with these shares afterwards. Out of memory, which only a trade may meet, leaves it as it was.
    pub(crate) fn step(&mut self, split: Split, step: OrderStep) -> Result<(), AllocError>
        requires { IsPlaced step self.old }
        ensures ok { OnOk result (self.new ≡ stepped split step self.old) }
        ensures err { OnErr result (self.new ≡ self.old) }
    {
        match step {
            OrderStep::Traded(trade) => self.trades.push(trade)?,
            OrderStep::Ended(ending) => self.ended = Some(ending),
            OrderStep::Busted { place, trade } => self.trades[place - 1] = trade,
        }
        self.split = split;
        Ok(())
    }
}
