//! The frames of a day.

use command_line::shown;
use dialect::AnyDialect;
use leg::VenueId;
use replay::World;
use std::alloc::{AllocError, Global};
use venue_replay::Frame;

/// A line for each frame that was written, venue by venue, those to the exchange and then those from it.
pub fn frame_lines(alloc: Global, world: &World<AnyDialect>) -> Result<Vec<u8>, AllocError> {
    let mut text = Vec::new(alloc);
    for number in 0..world.venues() {
        let Ok(venue) = VenueId::new(number as u8) else {
            break;
        };
        add_direction(alloc, &mut text, "to", venue, world.frames_to(venue))?;
        add_direction(alloc, &mut text, "from", venue, world.frames_from(venue))?;
    }
    Ok(text)
}

/// Adds the lines of one direction, each as `to 0 3 connection 1 8=FIX.4.4|..`.
fn add_direction(
    alloc: Global,
    text: &mut Vec<u8>,
    direction: &str,
    venue: VenueId,
    frames: &[Frame],
) -> Result<(), AllocError> {
    for (place, frame) in frames.iter().enumerate() {
        let number = place + 1;
        let connection = frame.connection;
        let head = format!(in alloc; "{direction} {venue} {number} connection {connection} ")?;
        text.extend_from_slice(head.as_bytes())?;
        text.extend_from_slice(&shown(alloc, &frame.bytes)?)?;
        text.push(b'\n')?;
    }
    Ok(())
}
