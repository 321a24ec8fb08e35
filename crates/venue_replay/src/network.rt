//! The frames of a network, as one end reads them.

ghost use Rattle.std.specs.Prelude.{◌≡◌, IfOk};
ghost use Rattle.std.specs.Option.{option_copied};
ghost use Rattle.leg.specs.Numbered.{numbered};
ghost use Rattle.fix_text.specs.FrameFields.{fields_in};
ghost use Rattle.fix_text.specs.Reading.{next_read};
ghost use Rattle.fix_tags.specs.Reading.{envelope_read};
ghost use Rattle.dialect.specs.Message.{decoded};
ghost use Rattle.dialect.specs.Wording.{Decoding};
ghost use Rattle.venue_replay.specs.Delivering.{IsMessage, IsFrameOfMessage};
ghost use Rattle.venue_replay.specs.Network.{message_of, message_in, stream_of};

use crate::frame::Frame;
use fix_tags::{EnvelopeRef, read_envelope};
use fix_text::FrameReader;
use schedule::FrameNumber;
use std::alloc::{AllocError, Global};

/// The frame of a number, counted from 1, if there is one.
pub fn frame_at(frames: &[Frame], number: FrameNumber) -> Option<&Frame>
    ensures { option_copied result ≡ numbered number frames.now }
{
    if number == 0 {
        return None;
    }
    frames.get((number - 1) as usize)
}

/// A stream of these bytes. The only refusal is out of memory.
pub fn stream_of(alloc: Global, bytes: &[u8]) -> Result<FrameReader, AllocError>
    ensures { IfOk result (λ stream. stream ≡ stream_of bytes.now) }
{
    let mut stream = FrameReader::new(alloc);
    match stream.feed(bytes) {
        Ok(()) => Ok(stream),
        Err(_) => Err(AllocError),
    }
}

/// The message of the next frame of a stream. The only refusal is out of memory.
pub fn next_message(stream: &mut FrameReader) -> Result<EnvelopeRef<'_>, AllocError>
    requires { IsFrameOfMessage (next_read stream.old).frame }
    ensures { IfOk result (λ envelope. (read : Decoding)
        → message_in read (next_read stream.old).frame ≡ decoded read envelope) }
{
    match stream.next() {
        Ok(Some(frame)) => Ok(message_of(&frame)),
        Ok(None) => unreachable!(),
        Err(_) => Err(AllocError),
    }
}

/// The message of a frame.
fn message_of<'a>(frame: &fix_text::Frame<'a>) -> EnvelopeRef<'a>
    requires { IsMessage (envelope_read (fields_in frame.now)) }
    ensures { (read : Decoding) → message_of read (envelope_read (fields_in frame.now)) ≡ decoded read result }
{
    match read_envelope(frame) {
        Ok(envelope) => envelope,
        Err(_) => unreachable!(),
    }
}
