//! What a call gives, as frames, and their lines.

ghost use Rattle.std.specs.Prelude.{◌≡◌, ◌≢◌, ◌++◌, ◌∷◌, [], Err, IfErr, IfOk, OnErr, OnOk, IsOkUnless, map};
ghost use Rattle.fix_text.specs.Frame.{framed};
ghost use Rattle.session_core.specs.declared.session_fault.SessionFault.TheVariants as session_fault;
ghost use Rattle.journal_words.specs.declared.fault.WordsFault.TheVariants as words_fault;
ghost use Rattle.journal_words.specs.Reading.{deed_in};
ghost use Rattle.journal_log.specs.Given.{frame_given, frames_given};
ghost use Rattle.journal_log.specs.Logged.{heard_lines, received_line, sent_lines};

use fix_tags::Stamp;
use fix_text::sum256;
use journal_words::{Deed, WordsFault};
use message_log::{Direction, log_line};
use session_core::{Frames, SessionFault, Step};
use std::alloc::{AllocError, Global};

const SOH: u8 = 1;

/// The frames of a call's step, where it wasn't refused. Out of memory is no refusal here.
pub(crate) fn frames_of(
    alloc: Global,
    given: Result<Step, SessionFault>,
) -> Result<Frames, WordsFault>
    ensures frames { OnOk result (given ≢ Err session_fault.OutOfMemory) }
    ensures value { IfOk result (λ frames. frames ≡ frames_given given) }
    ensures only { IsOkUnless result words_fault.OutOfMemory }
{
    match given {
        Ok(step) => Ok(step.out),
        Err(SessionFault::OutOfMemory) => Err(WordsFault::OutOfMemory),
        Err(_) => Ok(Frames::new(Vec::new(alloc))),
    }
}

/// A frame alone.
fn one_frame(alloc: Global, frame: Vec<u8>) -> Result<Frames, AllocError>
    ensures { IfOk result (λ frames. frames ≡ frame.items ∷ []) }
{
    let mut frames = Vec::with_capacity(alloc, 1)?;
    frames.push_reserved(frame);
    Ok(Frames::new(frames))
}

/// The frame that a call gives, where it wasn't refused.
pub(crate) fn frame_of(
    alloc: Global,
    given: Result<Vec<u8>, SessionFault>,
) -> Result<Frames, WordsFault>
    ensures frames { OnOk result (given ≢ Err session_fault.OutOfMemory) }
    ensures value { IfOk result (λ frames. frames ≡ frame_given given) }
    ensures only { IsOkUnless result words_fault.OutOfMemory }
{
    match given {
        Ok(frame) => match one_frame(alloc, frame) {
            Ok(frames) => Ok(frames),
            Err(_) => Err(WordsFault::OutOfMemory),
        },
        Err(SessionFault::OutOfMemory) => Err(WordsFault::OutOfMemory),
        Err(_) => Ok(Frames::new(Vec::new(alloc))),
    }
}

/// Appends a line for each of these frames, as one that was sent.
pub(crate) fn add_sent(
    alloc: Global,
    stamp: &Stamp,
    frames: Frames,
    log: &mut Vec<u8>,
) -> Result<(), AllocError>
    ensures { OnOk result (log.new.items ≡ log.old.items ++ sent_lines stamp.now frames) }
{
    let frames = frames.into_vec();
    for frame in &frames {
        let line = log_line(alloc, stamp, Direction::Sent, frame.as_slice())?;
        log.extend_from_slice(line.as_slice())?;
    }
    Ok(())
}

/// A frame of these fields: BeginString (8) and BodyLength (9) before them, CheckSum (10) behind.
fn framed(alloc: Global, fields: &[u8]) -> Result<Vec<u8>, AllocError>
    ensures { IfOk result (λ frame. frame.items ≡ framed fields.now) }
{
    let length = fields.len();
    let mut frame = format!(in alloc; "8=FIX.4.4\u{1}9={length}\u{1}")?.into_bytes();
    frame.extend_from_slice(fields)?;
    let sum = sum256(frame.as_slice());
    frame.extend_from_slice(b"10=")?;
    frame.extend_from_slice(&[b'0' + sum / 100, b'0' + sum / 10 % 10, b'0' + sum % 10, SOH])?;
    Ok(frame)
}

/// Appends the line of a message of these fields that was received.
fn add_received(
    alloc: Global,
    stamp: &Stamp,
    fields: &[u8],
    log: &mut Vec<u8>,
) -> Result<(), AllocError>
    ensures { OnOk result (log.new.items ≡ log.old.items ++ received_line stamp.now fields.now) }
{
    let frame = framed(alloc, fields)?;
    let line = log_line(alloc, stamp, Direction::Received, frame.as_slice())?;
    log.extend_from_slice(line.as_slice())
}

/// Appends the line of the message that was received, if one was: these are its fields.
pub(crate) fn add_heard(
    alloc: Global,
    stamp: &Stamp,
    deed: &Deed,
    fields: &[u8],
    log: &mut Vec<u8>,
) -> Result<(), AllocError>
    ensures { OnOk result
        (log.new.items ≡ log.old.items ++ heard_lines stamp.now (deed_in deed.now fields.now)) }
{
    match deed {
        Deed::Heard => add_received(alloc, stamp, fields, log),
        Deed::Act(_) | Deed::Leg(_, _) => Ok(()),
    }
}
