//! An order of a log, and what became of its shares.

ghost use Rattle.std.specs.Prelude.{◌≡◌, IfOk};
ghost use Rattle.log_legs.specs.KeptLeg.{is_gone, new_leg, reported, sent_again, symbol_said};

use crate::share_move::Move;
use crate::share_parts::ShareParts;
use fix_tags::TextRef;
use leg::Side;
use log_rules::OrderSaid;
use std::alloc::{AllocError, Global};
use std::marker::Model;

/// An order of a log, and what became of its shares.
#[derive(Debug, Drop)]
pub(crate) struct KeptLeg {
    symbol: Vec<u8>,
    side: Option<Side>,
    price: Option<u64>,
    sent: u64,
    is_reported: bool,
    parts: ShareParts,
}

impl Model for KeptLeg {
    ghost use Rattle.log_legs.specs.KeptLeg.{LegParts};

    ghost Value = { LegParts };

    ghost view = { λ leg. record {
      symbol = leg.symbol.items;
      side = leg.side;
      price = leg.price;
      sent = leg.sent;
      is_reported = leg.is_reported;
      parts = leg.parts;
    } };
}

/// The symbol with its suffix behind a point, or nothing where there is none.
fn symbol_of(
    alloc: Global,
    symbol: &Option<TextRef<'_>>,
    suffix: &Option<TextRef<'_>>,
) -> Result<Vec<u8>, AllocError>
    ensures { IfOk result (λ text. text.items ≡ symbol_said symbol.now suffix.now) }
{
    let mut text = Vec::new(alloc);
    let Some(symbol) = symbol else {
        return Ok(text);
    };
    text.extend_from_slice(symbol.as_bytes())?;
    if let Some(suffix) = suffix {
        text.push(b'.')?;
        text.extend_from_slice(suffix.as_bytes())?;
    }
    Ok(text)
}

impl KeptLeg {
    /// An order that is sent for the first time: all of its shares are open.
    pub(crate) fn new(alloc: Global, said: &OrderSaid<'_>) -> Result<KeptLeg, AllocError>
        ensures { IfOk result (λ leg. leg ≡ new_leg said.now) }
    {
        Ok(KeptLeg {
            symbol: symbol_of(alloc, &said.symbol, &said.suffix)?,
            side: said.side,
            price: said.price,
            sent: 1,
            is_reported: false,
            parts: ShareParts::new(said.shares),
        })
    }

    /// It is sent once more.
    pub(crate) fn send_again(&mut self)
        ensures { self.new ≡ sent_again self.old }
    {
        self.sent = self.sent.saturating_add(1);
    }

    /// Whether it is withdrawn, where it was asked for again in doubt: it was never sent again, and all of its shares
    /// are open.
    pub(crate) fn is_gone(&self, is_withdrawn: bool) -> bool
        ensures { result ≡ is_gone is_withdrawn self.now }
    {
        is_withdrawn && self.sent == 1 && self.parts.is_open()
    }

    /// A report on it is counted. No share moves of an order that was asked for again in doubt and is withdrawn.
    pub(crate) fn report(&mut self, is_withdrawn: bool, change: Move)
        ensures { self.new ≡ reported is_withdrawn change self.old }
    {
        if self.is_gone(is_withdrawn) {
            return;
        }
        self.is_reported = true;
        self.parts.apply(change);
    }

    /// The symbol with its suffix, and nothing where there is none.
    pub(crate) fn symbol(&self) -> &[u8]
        ensures { result.now ≡ self.now.symbol }
    {
        self.symbol.as_slice()
    }

    pub(crate) fn side(&self) -> Option<Side>
        ensures { result ≡ self.now.side }
    {
        self.side
    }

    /// The price in ten-thousandths of a dollar, where it is one.
    pub(crate) fn price(&self) -> Option<u64>
        ensures { result ≡ self.now.price }
    {
        self.price
    }

    /// How often it was sent.
    pub(crate) fn sent(&self) -> u64
        ensures { result ≡ self.now.sent }
    {
        self.sent
    }

    /// Whether a report on it was counted.
    pub(crate) fn is_reported(&self) -> bool
        ensures { result ≡ self.now.is_reported }
    {
        self.is_reported
    }

    pub(crate) fn parts(&self) -> &ShareParts
        ensures { result.now ≡ self.now.parts }
    {
        &self.parts
    }
}
