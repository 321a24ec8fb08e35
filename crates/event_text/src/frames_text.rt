//! The frames that were written, in words.

ghost use Rattle.std.specs.Prelude.{◌≡◌, ◌+◌, IfOk, OnOk, drop, string_bytes};
ghost use Rattle.event_text.specs.Deeds.{frame_phrases, frame_place, frame_text};
ghost use Rattle.event_text.specs.Says.{says};

use crate::note_text::joined;
use crate::say::say;
use command_line::shown;
use leg::VenueId;
use std::alloc::{AllocError, Global};
use venue_replay::Frame;

/// Where a frame stands, as `to 0 3 connection 1 `.
fn frame_place(
    alloc: Global,
    direction: &str,
    venue: VenueId,
    number: usize,
    connection: u64,
) -> Result<String, AllocError>
    ensures { IfOk result (λ text. string_bytes text ≡ frame_place direction.now venue number connection) }
{
    format!(in alloc; "{direction} {venue} {number} connection {connection} ")
}

/// A frame of a direction and a number, as `to 0 3 connection 1 8=FIX.4.4|..`.
fn frame_text(
    alloc: Global,
    direction: &str,
    venue: VenueId,
    number: usize,
    frame: &Frame,
) -> Result<Vec<u8>, AllocError>
    ensures { IfOk result (λ text. text.items ≡ frame_text direction.now venue number frame.now) }
{
    let place = frame_place(alloc, direction, venue, number, frame.connection)?;
    joined(place, &shown(alloc, &frame.bytes)?)
}

/// Says the frames of a direction behind so many.
pub(crate) fn say_frames(
    alloc: Global,
    text: &mut Vec<u8>,
    direction: &str,
    venue: VenueId,
    before: usize,
    frames: &[Frame],
) -> Result<(), AllocError>
    ensures { OnOk result (text.new.items
        ≡ says text.old.items (frame_phrases direction.now venue (before + 1) (drop before frames.now))) }
{
    for place in before..frames.len() {
        let phrase = frame_text(alloc, direction, venue, place + 1, &frames[place])?;
        say(text, &phrase)?;
    }
    Ok(())
}
