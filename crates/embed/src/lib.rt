//! Sessions, desk and book for a host that is no Rattle program, behind `examples/embed/dispatch.h`. The host has the
//! threads, the connections and the clock; the core has one end of a socket, over which the host says what happened and
//! is told what is to be done.
//!
//! Promises:
//! - Whatever bytes the host sends, each event is safe, and is answered or ends the call. The host's memory is in reach
//!   for the setup alone, which is lent for the call, and the core's never.
//! - A session answers what it is asked by its definition, and a frame that comes whole is received or ends the
//!   connection (`Line::connect`, `answer`, `break_off`, `hear`).
//! - A leg that is sent leaves the desk, and where it isn't sent the desk is as it was (`send_next`).
//! - The book withdraws what a session's step names, and takes its note. The note is confirmed once the book took it.
//!   If there is no memory for that, it isn't, and the book hasn't taken it (`book_step`).
//! - A gate is up while its session is. Else each leg that is placed is withdrawn, and none stays placed (`follow`,
//!   `no_leg_waits_for_a_session`).
//! - A line, and a frame with its length, are told byte by byte as their definitions say (`Said`).
//!
//! Not said: that an event of a venue comes to the line of its name and to the call of its name, how setup and events
//! are read, and the words of a line. No contract says what a socket gives. `checks/built/embed` plays days for these.
#![tactic(auto)]

mod book_keeping;
mod day;
mod event;
mod host;
mod laws;
mod line;
mod said;
mod setup;
mod stopped;
mod venue_day;

use crate::host::serve;
use crate::stopped::Stopped;
use os::FromRawFd;
use std::alloc::Global;
use std::os::unix::net::UnixStream;

/// Runs the core of a day of these venues, until the host closes its end of the socket. The core has the other end, and
/// closes it before it returns: 0, or why it ended before. 1, the setup is none; 2, out of memory; 3, an event of more
/// than 65,536 bytes; 4, the socket.
#[unsafe(no_mangle)]
pub extern "C" fn dispatch_run(alloc: Global, setup: &[u8], socket: i32) -> u32 {
    if socket < 0 {
        return Stopped::Socket.code();
    }
    let mut stream = unsafe { UnixStream::from_raw_fd(socket) };
    match serve(alloc, setup, &mut stream) {
        Ok(()) => 0,
        Err(stopped) => stopped.code(),
    }
}
