//! A message is written as its frame.
ghost use Rattle.std.specs.Prelude.{◌≡◌, ◌<◌, ◌+◌, ◌++◌, None, IfOk, OnOk, OnErr, length, vec_len, vec_capacity};
ghost use Rattle.fix_text.specs.Frame.{frame_text};
ghost use Rattle.fix_tags.specs.CompId.{IsCompId};
ghost use Rattle.fix_tags.specs.Message.{envelope_fields, envelope_refusal};
ghost use Rattle.fix_tags.specs.declared.body.Body.TheVariants.{Session};
ghost use Rattle.dialect.specs.declared.content.Content.TheVariants as content;
ghost use Rattle.dialect.specs.Framed.{envelope_of, IsFramed, AppendsSession, AppendsFrame, WantsFrame};
ghost use Rattle.dialect.specs.Writable.{IsWritable};

use crate::app_write::{append_order, append_report};
use crate::content::Content;
use crate::dialect::Dialect;
use crate::message::Message;
use crate::outgoing::Outgoing;
use fix_tags::{Body, CompId, Envelope, SessionBody, Stamp, WriteFault, write_envelope};
use std::alloc::{AllocError, Global};

/// The message of the session under its header, never under another number again (no 97).
fn envelope_of<'a>(message: &Message<'a>, says: &SessionBody<'a>) -> Envelope<'a>
    requires from { IsCompId message.now.from }
    requires to { IsCompId message.now.to }
    ensures { result ≡ envelope_of message.now (Session says.now) }
{
    Envelope {
        sender: CompId::new(message.from.as_bytes()).unwrap(),
        target: CompId::new(message.to.as_bytes()).unwrap(),
        number: message.number,
        poss_dup: message.poss_dup,
        poss_resend: false,
        body: Body::Session(says.clone().unwrap()),
    }
}

/// Appends the frame of a message that isn't refused.
fn append_envelope(
    envelope: &Envelope<'_>,
    stamp: &Stamp,
    out: &mut Vec<u8>,
) -> Result<(), AllocError>
    requires { envelope_refusal envelope.now stamp.now ≡ None }
    ensures ok { OnOk result (out.new.items ≡ out.old.items ++ frame_text (envelope_fields envelope.now stamp.now)) }
    ensures err { OnErr result (out.new.items ≡ out.old.items) }
    ensures full { OnErr result
        (vec_capacity out.old < vec_len out.old + length (frame_text (envelope_fields envelope.now stamp.now))) }
{
    match write_envelope(envelope, stamp, out) {
        Ok(()) => Ok(()),
        Err(WriteFault::OutOfMemory) => Err(AllocError),
        Err(_) => unreachable!(),
    }
}

/// Appends the frame of a message of the session.
fn append_session<'a>(
    stamp: &Stamp,
    outgoing: &Outgoing<'a>,
    says: &SessionBody<'a>,
    out: &mut Vec<u8>,
) -> Result<(), AllocError>
    requires writable { IsWritable outgoing.now }
    requires said { outgoing.now.message.content ≡ content.Session says.now }
    ensures ok { OnOk result (AppendsSession outgoing.now.message says.now stamp.now out.old.items out.new.items) }
    ensures err { OnErr result (out.new.items ≡ out.old.items) }
    ensures full { OnErr result (vec_capacity out.old < vec_len out.old
        + length (frame_text (envelope_fields (envelope_of outgoing.now.message (Session says.now)) stamp.now))) }
{
    let envelope = envelope_of(&outgoing.message, says);
    append_envelope(&envelope, stamp, out)
}

/// Appends the one frame of a message that is sent at this moment, in this dialect: the stamp is its SendingTime (52),
/// and TransactTime (60) of an order. Where the message may have been sent before (43=Y) the stamp is OrigSendingTime
/// (122) too. The only refusal is out of memory, and leaves `out` as it was: none comes where `out` has room for the
/// frame.
#[inline(always)]
pub fn append_message<D: Dialect>(
    alloc: Global,
    dialect: &D,
    stamp: &Stamp,
    outgoing: &Outgoing<'_>,
    out: &mut Vec<u8>,
) -> Result<(), AllocError>
    requires { IsWritable outgoing.now }
    ensures ok { OnOk result (AppendsFrame
        (D.wording dialect.now).encoding
        stamp.now outgoing.now out.old.items out.new.items) }
    ensures err { OnErr result (out.new.items ≡ out.old.items) }
    ensures full { OnErr result (WantsFrame (D.wording dialect.now).encoding
        stamp.now outgoing.now (vec_len out.old) (vec_capacity out.old)) }
{
    let message = &outgoing.message;
    match &message.content {
        Content::Order(Ok(leg)) => append_order(alloc, dialect, stamp, message, leg, out),
        Content::ExecutionReport(Ok(report)) => match &outgoing.beside {
            Some(view) => append_report(alloc, dialect, stamp, message, report, view, out),
            None => unreachable!(),
        },
        Content::Session(says) => append_session(stamp, outgoing, says, out),
        Content::Order(Err(_)) | Content::ExecutionReport(Err(_)) | Content::Other =>
            unreachable!(),
    }
}

/// The frame that `append_message` appends, alone.
pub fn write_message<D: Dialect>(
    alloc: Global,
    dialect: &D,
    stamp: &Stamp,
    outgoing: &Outgoing<'_>,
) -> Result<Vec<u8>, AllocError>
    requires { IsWritable outgoing.now }
    ensures { IfOk result (λ bytes. IsFramed
        (D.wording dialect.now).encoding
        stamp.now outgoing.now bytes.items) }
{
    let mut frame = Vec::new(alloc);
    append_message(alloc, dialect, stamp, outgoing, &mut frame)?;
    Ok(frame)
}
