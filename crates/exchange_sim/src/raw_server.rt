//! A server that keeps no rules.

use crate::port::Port;
use crate::stream::{Heard, hear, say};
use std::io::{Read, Write};

/// How many bytes of a client are dropped at once.
const MOST_DROPPED: usize = 1_024;

/// Waits for a client and its first byte, for so many turns of ten milliseconds at most; then writes these bytes, in
/// order, whatever comes, and closes the connection once the client has, or the turns are over. It says whether the
/// client took them all.
pub fn serve_raw(port: &mut Port, frames: &[Vec<u8>], turn_limit: u64) -> bool {
    let mut client = None;
    for turn in 0..turn_limit {
        client = match client {
            Some(mut stream) => match first_byte(&mut stream) {
                Heard::Bytes(_) => {
                    let is_taken = write_frames(&mut stream, port, frames);
                    wait_for_end(&mut stream, port, turn_limit - turn);
                    return is_taken;
                }
                Heard::Nothing => {
                    port.rest();
                    Some(stream)
                }
                Heard::Gone => None,
            },
            None => port.next_client(),
        };
    }
    false
}

/// Reads a byte, if one came.
fn first_byte<S: Read>(stream: &mut S) -> Heard {
    let mut buf = [0; 1];
    hear(stream, &mut buf)
}

/// Writes all frames, and says whether they were taken.
fn write_frames<S: Write>(stream: &mut S, port: &mut Port, frames: &[Vec<u8>]) -> bool {
    frames
        .iter()
        .all(|frame| writes_whole(stream, port, frame.as_slice()))
}

/// Writes all of these bytes, and says whether they were taken.
fn writes_whole<S: Write>(stream: &mut S, port: &mut Port, bytes: &[u8]) -> bool {
    let mut rest = bytes;
    for _ in 0..u64::MAX {
        if rest.is_empty() {
            return true;
        }
        match say(stream, rest) {
            Some(0) => port.rest(),
            Some(count) => rest = rest.split_at(count).1,
            None => return false,
        }
    }
    false
}

/// Drops what comes until the client has gone, for so many turns.
fn wait_for_end<S: Read>(stream: &mut S, port: &mut Port, most_turns: u64) {
    let mut buf = [0; MOST_DROPPED];
    for _ in 0..most_turns {
        match hear(stream, &mut buf) {
            Heard::Bytes(_) => {}
            Heard::Nothing => port.rest(),
            Heard::Gone => return,
        }
    }
}
