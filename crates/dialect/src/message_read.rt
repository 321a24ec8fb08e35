//! An envelope is read as a message.
ghost use Rattle.std.specs.Prelude.{◌≡◌};
ghost use Rattle.fix_tags.specs.Readable.{HaveNoSoh, IsReadableBody};
ghost use Rattle.dialect.specs.Read.{IsRead, IsReadContent};
ghost use Rattle.dialect.specs.Message.{application, content_of, decoded};
ghost use Rattle.dialect.specs.Wording.{Decoding};

use crate::content::Content;
use crate::dialect::Dialect;
use crate::message::Message;
use fix_tags::{AppFields, Body, BodyRef, EnvelopeRef, TextRef};

/// What an application message of one kind says.
fn application<D: Dialect>(dialect: &D, kind: &[u8], fields: &AppFields<'_>) -> Content<'static>
    ensures value { result ≡ application
        (D.wording dialect.now).decoding kind.now fields.now }
    ensures in_range { IsReadContent result }
{
    match kind {
        [b'D'] => Content::Order(dialect.read_order(fields)),
        [b'8'] => Content::ExecutionReport(dialect.read_report(fields)),
        _ => Content::Other,
    }
}

/// What a body says that was read from a frame.
#[tactic(auto, using(crate::proofs::ReadRanges::session_range))]
fn content_of<'a, D: Dialect>(dialect: &D, body: &BodyRef<'a>) -> Content<'a>
    requires range { IsReadableBody body.now }
    requires no_soh { HaveNoSoh body.now }
    ensures value { result ≡ content_of
        (D.wording dialect.now).decoding body.now }
    ensures in_range { IsReadContent result }
{
    match body {
        Body::Session(says) => Content::Session(says.clone().unwrap()),
        Body::App { kind, fields } => application(dialect, kind.as_bytes(), fields),
    }
}

/// The message that an envelope is, in this dialect. It takes no memory. An order or a report that the dialect refuses
/// is a message all the same, with the dialect's fault in it.
pub fn decode<'a, D: Dialect>(dialect: &D, envelope: &EnvelopeRef<'a>) -> Message<'a>
    ensures value { result ≡ decoded
        (D.wording dialect.now).decoding envelope.now }
    ensures in_range { IsRead result }
{
    Message {
        from: TextRef::new(envelope.sender()),
        to: TextRef::new(envelope.target()),
        number: envelope.number(),
        poss_dup: envelope.poss_dup(),
        content: content_of(dialect, envelope.body()),
    }
}
