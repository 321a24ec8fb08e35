//! The host, at the other end of a socket.

use crate::day::Day;
use crate::said::Said;
use crate::stopped::Stopped;
use std::alloc::Global;
use std::io::{ErrorKind, Read, Write};

/// The most bytes of an event.
const MAX_EVENT: usize = 65_536;

/// Answers each event of the host, to the last. A read gives one event, whole, or its front where it is too long; a
/// write gives a packet of its answer.
pub fn serve<H: Read + Write>(alloc: Global, setup: &[u8], host: &mut H) -> Result<(), Stopped> {
    let mut day = Day::of(alloc, setup)?;
    let mut room = Vec::from_elem(alloc, 0u8, MAX_EVENT + 1)?;
    for _ in 0..u64::MAX {
        match host.read(room.as_mut_slice()) {
            Ok(0) => return Ok(()),
            Ok(length) if length > MAX_EVENT => return Err(Stopped::EventTooLong),
            Ok(length) => answer(alloc, &mut day, &room[..length], host)?,
            Err(fault) if fault.kind() == ErrorKind::Interrupted => {}
            Err(_) => return Err(Stopped::Socket),
        }
    }
    Ok(())
}

/// Does what the host says, and tells it what came of that.
fn answer<H: Write>(
    alloc: Global,
    day: &mut Day,
    event: &[u8],
    host: &mut H,
) -> Result<(), Stopped> {
    let mut said = Said::new(alloc);
    day.take(event, &mut said)?;
    said.line("done")?;
    for packet in said.into_packets()? {
        host.write_all(&packet).map_err(|_| Stopped::Socket)?;
    }
    Ok(())
}
