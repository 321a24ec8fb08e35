//! How long an order stands and when it was made: TimeInForce (59) and TransactTime (60).

ghost use Rattle.std.specs.Prelude.{◌≡◌, ◌+◌, ◌<◌, ◌≤◌, OnErr};
ghost use Rattle.dialect.specs.Time.{immediate_in, immediate_fields};
ghost use Rattle.fix_text.specs.Sink.{Pushes};
ghost use Rattle.fix_tags.specs.Stamp.{stamp_text};

use crate::fault::DialectFault;
use crate::field_value::{is_value, required};
use crate::push::push_short;
use crate::tag::{TIME_IN_FORCE, TRANSACT_TIME};
use fix_tags::{AppFields, Stamp};
use fix_text::FieldSink;
use std::alloc::{AllocError, Global};

/// TimeInForce (59) of an order that is filled at once or cancelled.
pub(crate) const IMMEDIATE_OR_CANCEL: &[u8] = b"3";

/// Reads 59, which must be `3`, and then 60, which must be there with any value.
#[tactic(auto, unfolding(crate::specs::Time::immediate_in))]
pub(crate) fn check_immediate(fields: &AppFields<'_>) -> Result<(), DialectFault>
    ensures { result ≡ immediate_in fields.now }
{
    if !is_value(fields, TIME_IN_FORCE, IMMEDIATE_OR_CANCEL) {
        return Err(DialectFault::NotIoc);
    }
    required(fields, TRANSACT_TIME)?;
    Ok(())
}

/// Pushes 59 and 60, of which the text is given.
#[inline(always)]
pub(crate) fn push_immediate<F: FieldSink>(
    alloc: Global,
    stamp: &Stamp,
    time: &[u8],
    fields: &mut F,
) -> Result<(), AllocError>
    requires { time.now ≡ stamp_text stamp.now }
    ensures pushed { Pushes F.Takes (immediate_fields stamp.now) fields.old fields.new result }
    ensures left { F.room fields.old ≤ F.room fields.new + 2 }
    ensures full { OnErr result (F.room fields.old < 2) }
{
    push_short(alloc, TIME_IN_FORCE, IMMEDIATE_OR_CANCEL, fields)?;
    push_short(alloc, TRANSACT_TIME, time, fields)
}
