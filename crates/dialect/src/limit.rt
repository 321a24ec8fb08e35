//! How much an order is for, at which limit, and on which side: OrderQty (38), OrdType (40), Price (44) and Side (54).
//! It is on the way of each order, in each dialect: so what reads it is inlined.

ghost use Rattle.std.specs.Prelude.{◌≡◌, ◌+◌, ◌<◌, ◌≤◌, IfOk, IfSome, OnErr, length};
ghost use Rattle.fix_tags.specs.Price.{price_of};
ghost use Rattle.leg.specs.Leg.{IsLeg};
ghost use Rattle.leg.specs.Terms.{IsShares, IsPrice};
ghost use Rattle.fix_text.specs.Sink.{Pushes};
ghost use Rattle.dialect.specs.Fields.{required_as};
ghost use Rattle.dialect.specs.Limit.{order_shares_of, limit_order_in, side_of, limit_in, limit_fields, leg_of, side_text, IsInRange};

use crate::fault::DialectFault;
use crate::field_value::required;
use crate::push::{push_number, push_short};
use crate::spelling::Spelling;
use crate::tag::{ORD_TYPE, ORDER_QTY, PRICE, SIDE};
use fix_tags::{AppFields, read_price, read_shares};
use fix_text::FieldSink;
use leg::{Leg, LegId, MAX_SHARES, Side, Symbol, Terms};
use std::alloc::{AllocError, Global};

/// OrdType (40) of a limit order.
pub(crate) const LIMIT_ORDER: &[u8] = b"2";

/// Shares, limit price in ten-thousandths of a dollar, and side of an order.
#[derive(Clone, Copy)]
pub(crate) struct Limit {
    pub shares: u64,
    pub price: u64,
    pub side: Side,
}

/// Reads shares that a leg may be for.
#[inline(always)]
pub(crate) fn read_order_shares(text: &[u8]) -> Option<u64>
    ensures value { result ≡ order_shares_of text.now }
    ensures in_range { IfSome result IsShares }
{
    let shares = read_shares(text)?;
    if shares < 1 || shares > MAX_SHARES {
        return None;
    }
    Some(shares)
}

#[inline(always)]
fn read_order_price(text: &[u8]) -> Option<u64>
    ensures value { result ≡ price_of text.now }
    ensures in_range { IfSome result IsPrice }
{
    read_price(text)
}

/// Reads `1` as a buy and `2` as a sell.
#[inline(always)]
fn read_side(text: &[u8]) -> Option<Side>
    ensures { result ≡ side_of text.now }
{
    match text {
        [b'1'] => Some(Side::Buy),
        [b'2'] => Some(Side::Sell),
        _ => None,
    }
}

#[inline(always)]
fn shares_in(fields: &AppFields<'_>) -> Result<u64, DialectFault>
    ensures value { result ≡ required_as order_shares_of fields.now 38 }
    ensures in_range { IfOk result IsShares }
{
    let text = required(fields, ORDER_QTY)?;
    read_order_shares(text).ok_or(DialectFault::Bad(ORDER_QTY))
}

#[inline(always)]
fn check_limit_order(fields: &AppFields<'_>) -> Result<(), DialectFault>
    ensures { result ≡ limit_order_in fields.now }
{
    let text = required(fields, ORD_TYPE)?;
    if text == LIMIT_ORDER {
        Ok(())
    } else {
        Err(DialectFault::Bad(ORD_TYPE))
    }
}

#[inline(always)]
fn price_in(fields: &AppFields<'_>) -> Result<u64, DialectFault>
    ensures value { result ≡ required_as price_of fields.now 44 }
    ensures in_range { IfOk result IsPrice }
{
    let text = required(fields, PRICE)?;
    read_order_price(text).ok_or(DialectFault::Bad(PRICE))
}

#[inline(always)]
fn side_in(fields: &AppFields<'_>) -> Result<Side, DialectFault>
    ensures { result ≡ required_as side_of fields.now 54 }
{
    let text = required(fields, SIDE)?;
    read_side(text).ok_or(DialectFault::Bad(SIDE))
}

/// Reads 38 to 54, of which 40 must be `2`. The price may be spelled in every way that a price is read.
#[inline(always)]
#[tactic(auto, unfolding(crate::specs::Limit::limit_in))]
pub(crate) fn read_limit(fields: &AppFields<'_>) -> Result<Limit, DialectFault>
    ensures value { result ≡ limit_in fields.now }
    ensures in_range { IfOk result IsInRange }
{
    let shares = shares_in(fields)?;
    check_limit_order(fields)?;
    let price = price_in(fields)?;
    let side = side_in(fields)?;
    Ok(Limit {
        shares,
        price,
        side,
    })
}

/// The leg of an order whose parts were read.
pub(crate) fn leg_of(id: LegId, symbol: Symbol, limit: Limit) -> Leg
    requires { IsInRange limit }
    ensures value { result ≡ leg_of id symbol limit }
    ensures in_range { IsLeg result }
{
    let terms = Terms::new(symbol, limit.side, limit.shares, limit.price).unwrap();
    let leg = Leg { id, terms };
    // That the leg is in range is known once it was read.
    leg.in_range();
    leg
}

pub(crate) fn side_text(side: Side) -> &'static [u8]
    ensures value { result.now ≡ side_text side }
    ensures short { length result.now ≤ 24 }
{
    match side {
        Side::Buy => b"1",
        Side::Sell => b"2",
    }
}

/// Pushes 38 to 54 for the terms, the price as the dialect spells it.
pub(crate) fn push_limit<S: Spelling, F: FieldSink>(
    spelling: &S,
    alloc: Global,
    terms: &Terms,
    fields: &mut F,
) -> Result<(), AllocError>
    ensures pushed { Pushes F.Takes
        (limit_fields terms.now.shares ((S.spelling spelling.now).price_text terms.now.price) terms.now.side)
        fields.old fields.new result }
    ensures left { F.room fields.old ≤ F.room fields.new + 4 }
    ensures full { OnErr result (F.room fields.old < 4) }
{
    push_number(alloc, ORDER_QTY, terms.shares(), fields)?;
    push_short(alloc, ORD_TYPE, LIMIT_ORDER, fields)?;
    push_short(
        alloc,
        PRICE,
        spelling.price_text(terms.price()).as_slice(),
        fields,
    )?;
    push_short(alloc, SIDE, side_text(terms.side()), fields)
}
