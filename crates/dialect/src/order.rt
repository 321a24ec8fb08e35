//! An order is written and read, in any spelling.

ghost use Rattle.std.specs.Prelude.{◌≡◌, ◌+◌, ◌<◌, ◌++◌, IfOk, OnOk, OnErr, vec_len, vec_capacity};
ghost use Rattle.fix_text.specs.Sink.{Pushes};
ghost use Rattle.fix_tags.specs.Stamp.{stamp_text};
ghost use Rattle.leg.specs.Leg.{IsLeg};
ghost use Rattle.dialect.specs.Dialect.{Appends};
ghost use Rattle.dialect.specs.Fields.{required_as, IsGrown};
ghost use Rattle.dialect.specs.Order.{IsOrderOf, most_order_fields, order_fields, order_read_of};

use crate::fault::{DialectFault, SpellFault};
use crate::field_value::required;
use crate::limit::{leg_of, push_limit, read_limit};
use crate::push::{all_or_nothing, push_short};
use crate::spelling::Spelling;
use crate::tag::CL_ORD_ID;
use crate::time::{check_immediate, push_immediate};
use fix_tags::{AppFields, Stamp, stamp_bytes};
use fix_text::{Field, FieldSink};
use leg::{Leg, LegId};
use std::alloc::{AllocError, Global};

/// How many fields an order has at most, without those that every order of a venue carries besides.
const MAX_OWN_FIELDS: usize = 10;

/// The leg that ClOrdID (11) names. Orders and reports share it, and it is on the way of each: so it is inlined, with
/// the spelling's reading below it.
#[inline(always)]
pub(crate) fn id_in<S: Spelling>(
    spelling: &S,
    fields: &AppFields<'_>,
) -> Result<LegId, DialectFault>
    ensures { result ≡ required_as (S.spelling spelling.now).id_of fields.now 11 }
{
    let text = required(fields, CL_ORD_ID)?;
    spelling.read_id(text).ok_or(DialectFault::Bad(CL_ORD_ID))
}

/// Reads an order, as a venue spells it.
#[inline(always)]
#[tactic(auto, unfolding(crate::specs::Order::order_read_of))]
pub(crate) fn read_order<S: Spelling>(
    spelling: &S,
    fields: &AppFields<'_>,
) -> Result<Leg, DialectFault>
    ensures value { result ≡ order_read_of (S.spelling spelling.now) fields.now }
    ensures in_range { IfOk result IsLeg }
{
    let id = id_in(spelling, fields)?;
    if !spelling.is_marked(fields) {
        return Err(DialectFault::NotMarked);
    }
    let limit = read_limit(fields)?;
    let symbol = spelling.read_symbol(fields)?;
    check_immediate(fields)?;
    Ok(leg_of(id, symbol, limit))
}

/// Pushes the fields of an order, as a venue spells it. The stamp's text is given.
pub(crate) fn push_order<S: Spelling, F: FieldSink>(
    spelling: &S,
    alloc: Global,
    leg: &Leg,
    stamp: &Stamp,
    time: &[u8],
    fields: &mut F,
) -> Result<(), AllocError>
    requires { time.now ≡ stamp_text stamp.now }
    ensures pushed { Pushes F.Takes (order_fields (S.spelling spelling.now) leg.now stamp.now)
        fields.old fields.new result }
    ensures full { OnErr result (F.room fields.old < most_order_fields (S.spelling spelling.now)) }
{
    push_short(
        alloc,
        CL_ORD_ID,
        spelling.id_text(&leg.id).as_slice(),
        fields,
    )?;
    let mark = spelling.mark();
    push_short(alloc, mark.tag(), mark.value(), fields)?;
    push_limit(spelling, alloc, &leg.terms, fields)?;
    spelling.push_symbol(alloc, leg.terms.symbol(), fields)?;
    push_immediate(alloc, stamp, time, fields)?;
    spelling.push_extra(alloc, fields)
}

/// Appends the order to a list, or on a refused growth only a part of it.
fn list_order<S: Spelling>(
    spelling: &S,
    alloc: Global,
    leg: &Leg,
    stamp: &Stamp,
    fields: &mut Vec<Field>,
) -> Result<(), AllocError>
    ensures ok { OnOk result (fields.new.items
        ≡ fields.old.items ++ order_fields (S.spelling spelling.now) leg.now stamp.now) }
    ensures err { OnErr result (IsGrown fields.old.items fields.new.items) }
    ensures full { OnErr result
        (vec_capacity fields.old < vec_len fields.old + most_order_fields (S.spelling spelling.now)) }
{
    fields.reserve(MAX_OWN_FIELDS + spelling.extra_len())?;
    push_order(spelling, alloc, leg, stamp, &stamp_bytes(stamp), fields)
}

/// Appends the fields of an order, as a venue spells it. V05, which comes only where the list has no room for as many
/// fields as an order has at most, leaves it as it was.
pub(crate) fn write_order<S: Spelling>(
    spelling: &S,
    alloc: Global,
    leg: &Leg,
    stamp: &Stamp,
    fields: &mut Vec<Field>,
) -> Result<(), SpellFault>
    ensures ok { OnOk result
        (Appends (IsOrderOf (S.spelling spelling.now) leg.now stamp.now) fields.old.items fields.new.items) }
    ensures err { OnErr result (fields.new.items ≡ fields.old.items) }
    ensures full { OnErr result
        (vec_capacity fields.old < vec_len fields.old + most_order_fields (S.spelling spelling.now)) }
{
    // That the leg and the stamp are in range is known once they were read.
    leg.in_range();
    let _year = stamp.year();
    let start = fields.len();
    let written = list_order(spelling, alloc, leg, stamp, fields);
    all_or_nothing(written, start, fields)
}
