//! An order as its exchange sees it.

ghost use Rattle.std.specs.Prelude.{⊤, ◌≡◌};
ghost use Rattle.dialect.specs.OrderView.{order_view_of};

use crate::free_text::OrderId;
use leg::Leg;
use std::alloc::AllocError;
use std::marker::Model;

/// What an exchange writes beside a report: the leg, its OrderID (37), its CumQty (14), the shares filled and not
/// busted, and its LeavesQty (151), the shares open, of an ExecutionReport, FIX 4.4 Volume 4.
#[derive(Debug, PartialEq, Eq, Drop)]
pub struct OrderView {
    leg: Leg,
    order_id: OrderId,
    cum: u64,
    leaves: u64,
}

impl Model for OrderView {
    ghost use Rattle.dialect.specs.OrderView.{OrderViewParts, IsOrderView};

    ghost Value = { OrderViewParts };

    ghost view = { λ v. record {
      leg = v.leg;
      order_id = v.order_id;
      cum = v.cum;
      leaves = v.leaves;
    } };

    ghost invariant = { λ v. IsOrderView (record {
      leg = v.leg;
      order_id = v.order_id;
      cum = v.cum;
      leaves = v.leaves;
    }) };

    ghost inverse = { λ parts. record {
      leg = parts.leg;
      order_id = parts.order_id;
      cum = parts.cum;
      leaves = parts.leaves;
    } };
}

impl OrderView {
    ghost use Rattle.dialect.specs.OrderView.{IsOrderView};

    /// The view, or none unless the shares filled and those open are together at most the leg's.
    pub fn new(leg: Leg, order_id: OrderId, cum: u64, leaves: u64) -> Option<OrderView>
        ensures { result ≡ order_view_of leg order_id cum leaves }
    {
        let shares = leg.terms.shares();
        if cum > shares || leaves > shares - cum {
            return None;
        }
        // That the leg and the id are in range is known of values that were read.
        leg.in_range();
        let _ = order_id.as_bytes();
        Some(OrderView {
            leg,
            order_id,
            cum,
            leaves,
        })
    }

    pub fn leg(&self) -> &Leg
        ensures value { result.now ≡ self.now.leg }
        ensures in_range { IsOrderView self.now }
    {
        &self.leg
    }

    /// The id that the exchange gave the order.
    pub fn order_id(&self) -> &OrderId
        ensures value { result.now ≡ self.now.order_id }
        ensures in_range { IsOrderView self.now }
    {
        &self.order_id
    }

    /// How many shares are filled and not busted, at most the leg's.
    pub fn cum(&self) -> u64
        ensures value { result ≡ self.now.cum }
        ensures in_range { IsOrderView self.now }
    {
        self.cum
    }

    /// How many shares are open, at most the leg's less those filled.
    pub fn leaves(&self) -> u64
        ensures value { result ≡ self.now.leaves }
        ensures in_range { IsOrderView self.now }
    {
        self.leaves
    }
}

/// A clone takes no memory and doesn't fail: it is the same view.
impl Clone for OrderView {
    ghost is_clone = { λ view copy. copy ≡ view };

    ghost is_infallible = { λ _. ⊤ };

    fn clone(&self) -> Result<OrderView, AllocError> {
        Ok(OrderView {
            leg: self.leg.clone()?,
            order_id: self.order_id.clone()?,
            cum: self.cum,
            leaves: self.leaves,
        })
    }
}
