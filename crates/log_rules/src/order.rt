//! An order that was sent.

ghost use Rattle.std.specs.Prelude.{◌≡◌, IfOk};
ghost use Rattle.std.specs.Option.{option_map};
ghost use Rattle.log_rules.specs.Order.{new_order, refused, reported, withdrawn_by};

use crate::order_said::OrderSaid;
use crate::report_said::ReportSaid;
use fix_tags::TextRef;
use leg::Side;
use std::alloc::{AllocError, Global};
use std::marker::Model;

/// An order that was sent, and what the reports on it add up to.
#[derive(Debug, Drop)]
pub struct Order {
    id: Vec<u8>,
    number: u64,
    symbol: Option<Vec<u8>>,
    side: Option<Side>,
    price: Option<u64>,
    cum: u64,
    leaves: u64,
    is_withdrawn: bool,
}

impl Model for Order {
    ghost use Rattle.std.specs.Option.{option_map};
    ghost use Rattle.log_rules.specs.Order.{OrderParts};

    ghost Value = { OrderParts };

    ghost view = { λ o. record {
      id = o.id.items;
      number = o.number;
      symbol = option_map (λ text. text.items) o.symbol;
      side = o.side;
      price = o.price;
      cum = o.cum;
      leaves = o.leaves;
      is_withdrawn = o.is_withdrawn;
    } };
}

/// A text of its own, where there is one.
fn owned(alloc: Global, text: &Option<TextRef<'_>>) -> Result<Option<Vec<u8>>, AllocError>
    ensures { IfOk result (λ owned. option_map (λ text. text.items) owned ≡ text.now) }
{
    match text {
        Some(text) => Ok(Some(Vec::from_slice(alloc, text.as_bytes())?)),
        None => Ok(None),
    }
}

impl Order {
    /// An order as it is sent under a number: all of its shares are open.
    pub(crate) fn new(alloc: Global, number: u64, said: &OrderSaid<'_>) -> Result<Order, AllocError>
        ensures { IfOk result (λ order. order ≡ new_order number said.now) }
    {
        Ok(Order {
            id: Vec::from_slice(alloc, said.id.as_bytes())?,
            number,
            symbol: owned(alloc, &said.symbol)?,
            side: said.side,
            price: said.price,
            cum: 0,
            leaves: said.shares,
            is_withdrawn: false,
        })
    }

    /// ClOrdID (11).
    pub fn id(&self) -> &[u8]
        ensures { result.now ≡ self.now.id }
    {
        self.id.as_slice()
    }

    /// The number that it was sent under.
    pub fn number(&self) -> u64
        ensures { result ≡ self.now.number }
    {
        self.number
    }

    /// Symbol (55).
    pub(crate) fn symbol(&self) -> Option<&[u8]>
        ensures { option_map (λ text. text.now) result ≡ self.now.symbol }
    {
        match &self.symbol {
            Some(text) => Some(text.as_slice()),
            None => None,
        }
    }

    /// Side (54), where it is to buy or to sell.
    pub(crate) fn side(&self) -> Option<Side>
        ensures { result ≡ self.now.side }
    {
        self.side
    }

    /// Price (44) in ten-thousandths of a dollar, where it can be read.
    pub(crate) fn price(&self) -> Option<u64>
        ensures { result ≡ self.now.price }
    {
        self.price
    }

    /// The shares that were filled, and not busted.
    pub(crate) fn cum(&self) -> u64
        ensures { result ≡ self.now.cum }
    {
        self.cum
    }

    /// The shares that are open.
    pub(crate) fn leaves(&self) -> u64
        ensures { result ≡ self.now.leaves }
    {
        self.leaves
    }

    /// Whether the exchange asked for it again while it was in doubt, so that it is never accepted.
    pub fn is_withdrawn(&self) -> bool
        ensures { result ≡ self.now.is_withdrawn }
    {
        self.is_withdrawn
    }

    /// It is withdrawn where the exchange expects its number or one below, above the settled number: below, it expects
    /// what it had passed.
    pub(crate) fn withdraw(&mut self, settled: u64, expected: u64)
        ensures { self.new ≡ withdrawn_by settled expected self.old }
    {
        if settled < expected && expected <= self.number {
            self.is_withdrawn = true;
        }
    }

    /// Its sums are those of a report.
    pub(crate) fn report(&mut self, report: &ReportSaid<'_>)
        ensures { self.new ≡ reported report.now self.old }
    {
        if let (Some(cum), Some(leaves)) = (report.cum, report.leaves) {
            self.cum = cum;
            self.leaves = leaves;
        }
    }

    /// It was refused: nothing is open.
    pub(crate) fn refuse(&mut self)
        ensures { self.new ≡ refused self.old }
    {
        self.leaves = 0;
    }
}
