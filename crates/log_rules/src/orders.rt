//! The orders that were sent.

ghost use Rattle.std.specs.Prelude.{◌≡◌, ◌<◌, ◌++◌, ◌∷◌, [], map, length, OnOk, OnErr};
ghost use Rattle.std.specs.Option.{option_map};
ghost use Rattle.log_rules.specs.Ledger.{changed_at, newest_order, newest_under, order_changed, order_of};
ghost use Rattle.log_rules.specs.Order.{new_order, refused, reported, withdrawn_by};

use crate::number_places::NumberPlaces;
use crate::order::Order;
use crate::order_said::OrderSaid;
use crate::report_said::ReportSaid;
use crate::text_places::TextPlaces;
use std::alloc::{AllocError, Global};
use std::marker::Model;

/// The orders that were sent, in their order. Under each ClOrdID (11), and under each number, the place of its newest
/// order is kept.
#[derive(Debug, Drop)]
pub(crate) struct Orders {
    alloc: Global,
    items: Vec<Order>,
    by_id: TextPlaces,
    by_number: NumberPlaces,
}

impl Model for Orders {
    ghost use Rattle.std.specs.Prelude.{List};
    ghost use Rattle.log_rules.specs.Order.{OrderParts};

    ghost Value = { List OrderParts };

    ghost view = { λ o. o.items.items };

    ghost use Rattle.log_rules.specs.Kept.{KeepsOrderNumbers, KeepsOrders};

    ghost invariant = { λ o. KeepsOrders o.by_id o.items.items × KeepsOrderNumbers o.by_number o.items.items };
}

fn withdraw(orders: &mut [Order], settled: u64, expected: u64)
    ensures { orders.new ≡ map (withdrawn_by settled expected) orders.old }
{
    for order in orders.iter_mut() {
        order.withdraw(settled, expected);
    }
}

/// The order at a place has a report's sums.
#[tactic(auto, using(crate::proofs::ChangedAt::set_is_changed))]
fn sum_up_at(orders: &mut [Order], place: usize, said: &ReportSaid<'_>)
    requires { place < length orders.old }
    ensures { orders.new ≡ order_changed (reported said.now) place orders.old }
{
    orders[place].report(said);
}

/// Nothing is open of the order at a place.
#[tactic(auto, using(crate::proofs::ChangedAt::set_is_changed))]
fn refuse_at(orders: &mut [Order], place: usize)
    requires { place < length orders.old }
    ensures { orders.new ≡ order_changed refused place orders.old }
{
    orders[place].refuse();
}

impl Orders {
    pub(crate) fn new(alloc: Global) -> Orders
        ensures { result ≡ [] }
    {
        Orders {
            alloc,
            items: Vec::new(alloc),
            by_id: TextPlaces::new(alloc),
            by_number: NumberPlaces::new(alloc),
        }
    }

    pub(crate) fn as_slice(&self) -> &[Order]
        ensures { result.now ≡ self.now }
    {
        self.items.as_slice()
    }

    /// The place of the newest order of this id.
    pub(crate) fn place_of(&self, id: &[u8]) -> Option<usize>
        ensures { result ≡ newest_order self.now id.now }
    {
        self.by_id.get(id)
    }

    /// The place of the newest order that was sent under this number.
    pub(crate) fn place_under(&self, number: u64) -> Option<usize>
        ensures { result ≡ newest_under self.now number }
    {
        self.by_number.get(number)
    }

    /// The newest order of this id.
    pub(crate) fn get(&self, id: &[u8]) -> Option<&Order>
        ensures { option_map (λ order. order.now) result ≡ order_of self.now id.now }
    {
        self.items.get(self.by_id.get(id)?)
    }

    /// An order is behind the others. A refused growth changes nothing.
    pub(crate) fn push(&mut self, number: u64, said: &OrderSaid<'_>) -> Result<(), AllocError>
        ensures ok { OnOk result (self.new ≡ self.old ++ new_order number said.now ∷ []) }
        ensures err { OnErr result (self.new ≡ self.old) }
    {
        let order = Order::new(self.alloc, number, said)?;
        let id = Vec::from_slice(self.alloc, said.id.as_bytes())?;
        self.items.reserve(1)?;
        self.by_id.reserve()?;
        self.by_number.set(number, self.items.len())?;
        self.by_id.set(id, self.items.len());
        self.items.push_reserved(order);
        Ok(())
    }

    /// The newest order of the id that a report is on has the report's sums.
    pub(crate) fn sum_up(&mut self, said: &ReportSaid<'_>)
        ensures { self.new ≡ changed_at (reported said.now) (newest_order self.old said.now.id) self.old }
    {
        if let Some(place) = self.by_id.get(said.id.as_bytes()) {
            sum_up_at(&mut self.items, place, said);
        }
    }

    /// Nothing is open of the newest order that was sent under this number.
    pub(crate) fn refuse(&mut self, number: u64)
        ensures { self.new ≡ changed_at refused (newest_under self.old number) self.old }
    {
        if let Some(place) = self.by_number.get(number) {
            refuse_at(&mut self.items, place);
        }
    }

    /// Each order is withdrawn under the number that the exchange expects or a higher one, if that is above the settled
    /// number.
    pub(crate) fn withdraw_from(&mut self, settled: u64, expected: u64)
        ensures { self.new ≡ map (withdrawn_by settled expected) self.old }
    {
        withdraw(&mut self.items, settled, expected);
    }
}
