//! The connection and the number of a frame.

ghost use Rattle.std.specs.Prelude.{◌≡◌, IfOk};
ghost use Rattle.std.specs.Option.{option_copied, option_map};
ghost use Rattle.fix_text.specs.FrameFields.{fields_in};
ghost use Rattle.fix_text.specs.Reading.{next_read};
ghost use Rattle.fix_tags.specs.Reading.{envelope_read};
ghost use Rattle.leg.specs.Numbered.{numbered};
ghost use Rattle.dialect.specs.Wording.{Decoding};
ghost use Rattle.venue_replay.specs.Kept.{last_connection};
ghost use Rattle.venue_replay.specs.Network.{all_said, message_in, message_of, said_by, said_in, stream_of};
ghost use Rattle.event_text.specs.Heads.{head_said};

use fix_tags::read_envelope;
use fix_text::FrameReader;
use schedule::FrameNumber;
use std::alloc::{AllocError, Global};
use venue_replay::Frame;

/// The connection that a frame was written in, and the number of its message.
#[derive(Clone, Copy, Debug)]
pub(crate) struct FrameHead {
    pub(crate) connection: u64,
    pub(crate) number: u64,
}

/// A stream of these bytes. The only refusal is out of memory.
fn stream_of(alloc: Global, bytes: &[u8]) -> Result<FrameReader, AllocError>
    ensures { IfOk result (λ stream. stream ≡ stream_of bytes.now) }
{
    let mut stream = FrameReader::new(alloc);
    match stream.feed(bytes) {
        Ok(()) => Ok(stream),
        Err(_) => Err(AllocError),
    }
}

/// The number of the message of a frame, 0 where it is none.
fn number_of(frame: &fix_text::Frame<'_>) -> u64
    ensures { (read : Decoding) → (message_of read (envelope_read (fields_in frame.now))).number ≡ result }
{
    match read_envelope(frame) {
        Ok(envelope) => envelope.number(),
        Err(_) => 0,
    }
}

/// The number of the next message of a stream, 0 where there is none.
fn next_number(stream: &mut FrameReader) -> Result<u64, AllocError>
    ensures { IfOk result (λ number. (read : Decoding)
        → (message_in read (next_read stream.old).frame).number ≡ number) }
{
    match stream.next() {
        Ok(Some(frame)) => Ok(number_of(&frame)),
        Ok(None) => Ok(0),
        Err(_) => Err(AllocError),
    }
}

/// The number of the message of these bytes, 0 where they are none.
fn number_in(alloc: Global, bytes: &[u8]) -> Result<u64, AllocError>
    ensures { IfOk result (λ number. (read : Decoding) → (said_by read bytes.now).number ≡ number) }
{
    let mut stream = stream_of(alloc, bytes)?;
    next_number(&mut stream)
}

/// The connection and the number of a frame.
fn head_in(alloc: Global, frame: &Frame) -> Result<FrameHead, AllocError>
    ensures { IfOk result (λ head. (read : Decoding) → head_said (said_in read frame.now) ≡ head) }
{
    Ok(FrameHead {
        connection: frame.connection,
        number: number_in(alloc, &frame.bytes)?,
    })
}

/// The frame of a number, counted from 1, if there is one.
fn frame_at(frames: &[Frame], number: FrameNumber) -> Option<&Frame>
    ensures { option_copied result ≡ numbered number frames.now }
{
    if number == 0 {
        return None;
    }
    frames.get((number - 1) as usize)
}

/// The connection and the number of the frame of a number, counted from 1, if there is one.
pub(crate) fn head_of(
    alloc: Global,
    frames: &[Frame],
    number: FrameNumber,
) -> Result<Option<FrameHead>, AllocError>
    ensures { IfOk result (λ head. (read : Decoding)
        → head ≡ option_map head_said (numbered number (all_said read frames.now))) }
{
    match frame_at(frames, number) {
        Some(frame) => Ok(Some(head_in(alloc, frame)?)),
        None => Ok(None),
    }
}

/// The connection of the last frame, if there is one.
pub(crate) fn last_connection(frames: &[Frame]) -> Option<u64>
    ensures { result ≡ last_connection frames.now }
{
    match frames.last() {
        Some(frame) => Some(frame.connection),
        None => None,
    }
}
