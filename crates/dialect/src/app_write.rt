//! An order and a report are written straight into their frame.
ghost use Rattle.std.specs.Prelude.{◌≡◌, ◌≤◌, ◌<◌, ◌+◌, ◌++◌, [], IsOk, IsSome, IsSomeAnd, OnOk, OnErr, codes, length, vec_len, vec_capacity};
ghost use Rattle.fix_text.specs.Frame.{framed};
ghost use Rattle.fix_text.specs.Sink.{Pushes, TakesFields};
ghost use Rattle.fix_tags.specs.Message.{header_fields};
ghost use Rattle.fix_tags.specs.declared.body.Body.TheVariants.{App};
ghost use Rattle.dialect.specs.Framed.{envelope_of, AppendsApp, WantsApp};
ghost use Rattle.dialect.specs.Writable.{IsAddressed};

use crate::dialect::Dialect;
use crate::kind::{ORDER_KIND, REPORT_KIND};
use crate::message::Message;
use crate::order_view::OrderView;
use crate::report::Report;
use fix_tags::{Header, Stamp, push_header, stamp_bytes};
use fix_text::{FrameBody, TextFault, write_body};
use leg::Leg;
use std::alloc::{AllocError, Global};

/// Pushes the header of an application message of this kind, with this text as its sending time.
#[inline(always)]
fn push_app_header(
    alloc: Global,
    message: &Message<'_>,
    kind: &[u8],
    time: &[u8],
    body: &mut FrameBody,
) -> Result<(), AllocError>
    requires addressed { IsAddressed message.now }
    requires kind { length kind.now ≤ 24 }
    requires time { length time.now ≤ 24 }
    ensures pushed { Pushes TakesFields (header_fields (envelope_of message.now (App kind.now [])) time.now)
        body.old body.new result }
    ensures taken { IsOk result }
{
    let header = Header {
        kind,
        sender: message.from.as_bytes(),
        target: message.to.as_bytes(),
        number: message.number,
        poss_dup: message.poss_dup,
        poss_resend: false,
        time,
    };
    push_header(alloc, &header, body)
}

/// Appends the frame of a body that isn't too long.
fn append_body(body: &FrameBody, out: &mut Vec<u8>) -> Result<(), AllocError>
    requires { IsSome body.now }
    ensures ok { OnOk result (IsSomeAnd body.now (λ text. out.new.items ≡ out.old.items ++ framed text)) }
    ensures err { OnErr result (out.new.items ≡ out.old.items) }
    ensures full { OnErr result
        (IsSomeAnd body.now (λ text. vec_capacity out.old < vec_len out.old + length (framed text))) }
{
    match write_body(body, out) {
        Ok(()) => Ok(()),
        Err(TextFault::OutOfMemory) => Err(AllocError),
        Err(_) => unreachable!(),
    }
}

/// Appends the frame of an order, written straight into it. One text is SendingTime (52) and TransactTime (60).
pub(crate) fn append_order<D: Dialect>(
    alloc: Global,
    dialect: &D,
    stamp: &Stamp,
    message: &Message<'_>,
    leg: &Leg,
    out: &mut Vec<u8>,
) -> Result<(), AllocError>
    requires { IsAddressed message.now }
    ensures ok { OnOk result (AppendsApp ((D.wording dialect.now).encoding.IsOrder leg.now stamp.now)
        message.now stamp.now (codes "D") out.old.items out.new.items) }
    ensures err { OnErr result (out.new.items ≡ out.old.items) }
    ensures full { OnErr result (WantsApp ((D.wording dialect.now).encoding.IsOrder leg.now stamp.now)
        message.now stamp.now (codes "D") (vec_len out.old) (vec_capacity out.old)) }
{
    let time = stamp_bytes(stamp);
    let mut body = FrameBody::new();
    push_app_header(alloc, message, ORDER_KIND, &time, &mut body)?;
    dialect.push_order(alloc, leg, stamp, &time, &mut body)?;
    append_body(&body, out)
}

/// Appends the frame of a report, written straight into it.
pub(crate) fn append_report<D: Dialect>(
    alloc: Global,
    dialect: &D,
    stamp: &Stamp,
    message: &Message<'_>,
    report: &Report,
    view: &OrderView,
    out: &mut Vec<u8>,
) -> Result<(), AllocError>
    requires addressed { IsAddressed message.now }
    requires own_leg { view.now.leg.id ≡ report.now.id }
    ensures ok { OnOk result (AppendsApp ((D.wording dialect.now).encoding.IsReport report.now view.now)
        message.now stamp.now (codes "8") out.old.items out.new.items) }
    ensures err { OnErr result (out.new.items ≡ out.old.items) }
    ensures full { OnErr result (WantsApp ((D.wording dialect.now).encoding.IsReport report.now view.now)
        message.now stamp.now (codes "8") (vec_len out.old) (vec_capacity out.old)) }
{
    let time = stamp_bytes(stamp);
    let mut body = FrameBody::new();
    push_app_header(alloc, message, REPORT_KIND, &time, &mut body)?;
    dialect.push_report(alloc, report, view, &mut body)?;
    append_body(&body, out)
}
