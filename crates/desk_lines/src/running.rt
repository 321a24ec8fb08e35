//! The callers of a day: the standard input, and each server of clients in a thread of its own.

ghost use Rattle.std.specs.Prelude.{◌≡◌, IfSome};

use crate::server::LineServer;
use desk_floor::Floor;
use desk_talk::{Callers, InputLines, LinesEnd, take_lines};
use exec_collector::Accounts;
use kept_link::Telling;
use release_lock::{CallerSeat, Run};
use std::alloc::Global;
use std::collections::VecDeque;
use std::io::{Read, Write};
use std::net::{Net, TcpListener, TcpStream};
use std::sync::Wait;
use std::thread::Threads;
use std::{thread, time};

/// Takes the lines of the standard input as `take_lines` does, in this thread, while each of these servers serves
/// clients until the day is over. Where a thread is refused the day is given up, and it leaves nothing.
pub fn take_all_lines<L, M, W, J, I, R>(
    rt: &R,
    alloc: Global,
    floor: &Floor<L, M, W, J>,
    callers: &Callers,
    servers: Vec<LineServer>,
    seat: CallerSeat<L>,
    lines: InputLines<I>,
) -> Option<LinesEnd<L>>
where
    L: Run + Send + Sync,
    M: Accounts + Send + Sync,
    W: Write + Drop + Send,
    J: Telling + Send,
    I: Read + Drop,
    R: Net<Listener = TcpListener, Stream = TcpStream> + Threads + Wait + time::Clock + Sync,
    ensures { IfSome result (λ end. end.seat.parts ≡ seat.parts) }
{
    thread::scope(
        thread::scope_env(),
        rt,
        |scope| -> Option<LinesEnd<L>>
            ensures { IfSome result (λ end. end.seat.parts ≡ seat.parts) }
        {
            let mut servers = VecDeque::from(servers);
            while let Some(server) = servers.pop_front() {
                let started = scope.spawn(move || server.serve(rt, alloc, floor, callers));
                if started.is_err() {
                    floor.give_up();
                    return None;
                }
            }
            take_lines(rt, alloc, floor, callers, seat, lines)
        },
    )
}
