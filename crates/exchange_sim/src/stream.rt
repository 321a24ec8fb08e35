//! A client of a server, as a turn meets it.

ghost use Rattle.std.specs.Prelude.{◌≤◌, length, IfSome};
ghost use Rattle.exchange_sim.specs.Heard.{FitsIn};

use std::io::{ErrorKind, Read, Write};

/// What a client said in a turn.
#[derive(Clone, Copy, PartialEq, Eq)]
pub enum Heard {
    /// So many bytes, at the front of the buffer.
    Bytes(usize),
    /// Nothing yet.
    Nothing,
    /// Nothing any more: the client has gone, or the connection failed.
    Gone,
}

/// Reads once, without waiting.
pub fn hear<S: Read>(stream: &mut S, buf: &mut [u8]) -> Heard
    ensures { FitsIn buf.new result }
{
    match stream.read(buf) {
        Ok(0) => Heard::Gone,
        Ok(count) => Heard::Bytes(count),
        Err(e) if matches!(e.kind(), ErrorKind::WouldBlock | ErrorKind::Interrupted) => {
            Heard::Nothing
        }
        Err(_) => Heard::Gone,
    }
}

/// Writes once, without waiting, and says how many of the bytes the client took. None where it takes none any more.
pub fn say<S: Write>(stream: &mut S, bytes: &[u8]) -> Option<usize>
    ensures { IfSome result (λ count. count ≤ length bytes.now) }
{
    if bytes.is_empty() {
        return Some(0);
    }
    match stream.write(bytes) {
        Ok(0) => None,
        Ok(count) => Some(count),
        Err(e) if matches!(e.kind(), ErrorKind::WouldBlock | ErrorKind::Interrupted) => Some(0),
        Err(_) => None,
    }
}
