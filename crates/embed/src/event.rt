//! What the host says, read.

use fix_tags::{Stamp, read_stamp};
use std::str;

/// What a session is asked for, and answers by a step.
#[derive(Clone, Copy)]
pub enum Ask {
    /// Nothing was written for a while.
    Quiet,
    /// Nothing was received for a while.
    Silent,
    Close,
}

/// What happened at a venue, or is asked of its session.
#[derive(Clone, Copy)]
pub enum VenueEvent<'a> {
    /// The connection is there.
    Connect,
    /// These bytes came over it.
    Received(&'a [u8]),
    /// The next leg that is released to the venue is to be sent.
    Send,
    Ask(Ask),
    /// The connection is gone.
    Broken,
    /// How the session stands is asked.
    Stands,
}

/// What the host says.
#[derive(Clone, Copy)]
pub enum Event<'a> {
    /// A line that asks for a sweep.
    Sweep(&'a [u8]),
    /// What became of the shares of a sweep is asked.
    Totals(u64),
    /// Of the venue of this name.
    Venue(&'a [u8], VenueEvent<'a>),
}

/// An event without its bytes, and the bytes behind its line.
fn parted(event: &[u8]) -> (&[u8], &[u8]) {
    for end in 0..event.len() {
        if event[end] == b'\n' {
            return (&event[..end], &event[end + 1..]);
        }
    }
    (event, &[])
}

fn venue_event<'a>(verb: &str, bytes: &'a [u8]) -> Option<VenueEvent<'a>> {
    match verb {
        "connect" => Some(VenueEvent::Connect),
        "received" => Some(VenueEvent::Received(bytes)),
        "send" => Some(VenueEvent::Send),
        "quiet" => Some(VenueEvent::Ask(Ask::Quiet)),
        "silent" => Some(VenueEvent::Ask(Ask::Silent)),
        "close" => Some(VenueEvent::Ask(Ask::Close)),
        "broken" => Some(VenueEvent::Broken),
        "stands" => Some(VenueEvent::Stands),
        _ => None,
    }
}

/// The event of a line behind its time.
fn event_of<'a>(line: &'a str, bytes: &'a [u8]) -> Option<Event<'a>> {
    let (verb, rest) = line.split_once(' ')?;
    match verb {
        "sweep" => Some(Event::Sweep(line.as_bytes())),
        "totals" => Some(Event::Totals(rest.parse().ok()?)),
        _ => Some(Event::Venue(rest.as_bytes(), venue_event(verb, bytes)?)),
    }
}

/// When an event happened, and what: `20240102-14:30:00.000 received NYSE`, the end of the line, and the bytes.
pub fn read_event(event: &[u8]) -> Option<(Stamp, Event<'_>)> {
    let (line, bytes) = parted(event);
    let (at, line) = str::from_utf8(line).ok()?.split_once(' ')?;
    Some((read_stamp(at.as_bytes())?, event_of(line, bytes)?))
}
