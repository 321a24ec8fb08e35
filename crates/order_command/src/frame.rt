//! The way of an order: from a leg to the bytes of a frame, and back.
ghost use Rattle.std.specs.Prelude.{◌≡◌, ℕ, List, IfOk};
ghost use Rattle.fix_text.specs.FrameFields.{fields_in};
ghost use Rattle.fix_text.specs.Reading.{next_read};
ghost use Rattle.fix_tags.specs.Reading.{envelope_read};
ghost use Rattle.leg.specs.declared.leg.Leg.{Leg};
ghost use Rattle.order_command.specs.Header.{HeaderParts};
ghost use Rattle.order_command.specs.OrderFrame.{stream_of, IsOrderFrame, order_in, order_of_message, ReadsOrder, GivesLeg};

use crate::header::Header;
use crate::order_fault::OrderFault;
use crate::room::OrderRoom;
use dialect::{Dialect, ORDER_KIND};
use fix_tags::{Body, EnvelopeRef, TextRef, read_envelope, write_envelope};
use fix_text::{Fields, Frame, FrameReader};
use leg::Leg;
use std::alloc::{AllocError, Global};

/// The leg as the frame of an order, in this dialect. It takes no memory but the room that it is given, so nothing is
/// refused.
pub fn write_order_frame<D: Dialect>(
    alloc: Global,
    dialect: &D,
    leg: &Leg,
    header: Header,
    room: OrderRoom,
) -> Vec<u8>
    ensures { IsOrderFrame
        (D.wording dialect.now).encoding leg.now header result.items }
{
    leg.in_range();
    let at = header.at();
    let OrderRoom {
        mut fields,
        mut frame,
    } = room;
    dialect.write_order(alloc, leg, &at, &mut fields).unwrap();
    let fields = Fields::new(fields);
    let kind = TextRef::new(ORDER_KIND);
    let message = header.message(Body::App { kind, fields });
    write_envelope(&message, &at, &mut frame).unwrap();
    frame
}

/// The leg of a message, if it is an order.
fn order_of_message<D: Dialect>(dialect: &D, message: &EnvelopeRef<'_>) -> Result<Leg, OrderFault>
    ensures { result ≡ order_in (D.wording dialect.now).decoding.order message.now.body }
{
    match message.body() {
        Body::App { kind, fields } => match kind.as_bytes() {
            [b'D'] => dialect.read_order(fields).map_err(OrderFault::BadOrder),
            _ => Err(OrderFault::NoOrder),
        },
        Body::Session(_) => Err(OrderFault::NoOrder),
    }
}

/// The leg of a frame's message.
fn order_of_frame<D: Dialect>(dialect: &D, frame: &Frame<'_>) -> Result<Leg, OrderFault>
    ensures { result ≡ order_of_message (D.wording dialect.now).decoding.order (envelope_read (fields_in frame.now)) }
{
    match read_envelope(frame) {
        Ok(message) => order_of_message(dialect, &message),
        Err(fault) => Err(OrderFault::NoMessage(fault)),
    }
}

/// A stream of these bytes. The only refusal is out of memory.
pub fn stream_of(alloc: Global, bytes: &[u8]) -> Result<FrameReader, AllocError>
    ensures { IfOk result (λ stream. stream ≡ stream_of bytes.now) }
{
    let mut stream = FrameReader::new(alloc);
    match stream.feed(bytes) {
        Ok(()) => Ok(stream),
        Err(_) => Err(AllocError),
    }
}

fn first_order<D: Dialect>(dialect: &D, stream: &mut FrameReader) -> Result<Leg, OrderFault>
    ensures { ReadsOrder (D.wording dialect.now).decoding.order (next_read stream.old).frame result }
{
    match stream.next() {
        Ok(Some(frame)) => order_of_frame(dialect, &frame),
        Ok(None) => Err(OrderFault::NoFrame),
        Err(_) => Err(OrderFault::OutOfMemory),
    }
}

/// The leg of the first frame of a stream, by the reader, the envelope and the dialect.
///
/// `NoFrame`: there is no whole valid frame; `NoMessage`: its fields aren't a message; `NoOrder`: it
/// is none of kind `D`; `BadOrder`: the dialect refuses its fields.
pub fn read_order_frame<D: Dialect>(dialect: &D, mut stream: FrameReader) -> Result<Leg, OrderFault>
    ensures read { ReadsOrder (D.wording dialect.now).decoding.order (next_read stream).frame result }
    // The frame of an order is read back as its leg.
    ensures order { (leg : Leg) (header : HeaderParts) (bytes : List ℕ) → stream ≡ stream_of bytes
        → IsOrderFrame (D.wording dialect.now).encoding leg header bytes
        → GivesLeg leg result }
{
    first_order(dialect, &mut stream)
}
