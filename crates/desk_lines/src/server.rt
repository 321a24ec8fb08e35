//! What serves a day's lines: each server one connection after the other, in a thread of its own.

use crate::door::Door;
use crate::greeting::greeted;
use crate::line_stream::LineStream;
use desk_floor::{Floor, TalkFault, Voice};
use desk_talk::{Callers, DeskInput, InputLines, Said, serve_client};
use exec_collector::Accounts;
use kept_link::Telling;
use readiness::Wakeup;
use release_lock::Run;
use std::alloc::Global;
use std::io::{self, Read, Write};
use std::net::{Net, TcpListener, TcpStream};
use std::sync::{Arc, Wait};
use std::time::{Clock, Duration};

/// How many seconds a read or a write may take.
const MOST_SECONDS: u64 = 5;

/// How many milliseconds each read takes at most that waits for a client to go, and how many such reads there are.
const PART_MILLIS: u64 = 100;

const PART_READS: u64 = 10;

/// One of the servers of a day's lines.
#[derive(Drop)]
pub struct LineServer {
    door: Arc<Door, Global>,
    is_first: bool,
}

impl LineServer {
    /// One that serves at this door, and whether it is the door's first.
    pub(crate) fn new(door: Arc<Door, Global>, is_first: bool) -> LineServer {
        LineServer { door, is_first }
    }

    /// Whether it is the first of its door.
    pub fn is_first(&self) -> bool {
        self.is_first
    }

    /// What has the servers of its door look whether the day is over.
    pub fn wakeup(&self) -> io::Result<Arc<Wakeup, Global>> {
        self.door.entrance.wakeup()
    }

    /// Serves clients until the day is over, from when its workers run and each venue is up, but no later than two
    /// seconds after. A client for which there is no memory is let go.
    pub(crate) fn serve<L, M, W, J, R>(
        self,
        rt: &R,
        alloc: Global,
        floor: &Floor<L, M, W, J>,
        callers: &Callers,
    )
    where
        L: Run,
        M: Accounts,
        W: Write + Drop,
        J: Telling,
        R: Net<Listener = TcpListener, Stream = TcpStream> + Wait + Clock,
    {
        if !floor.signals.awaits(rt, &floor.signals.workers) {
            return;
        }
        floor.await_venues(rt);
        for _ in rt.forever() {
            if floor.signals.is_over() {
                return;
            }
            let client = self.door.entrance.next_client(rt, &floor.signals.is_over);
            match client {
                Some(client) => {
                    let _ = self.serve_stream(rt, alloc, floor, callers, client);
                }
                None => callers.look(rt, &floor.collector),
            }
        }
    }

    /// Serves a client that came in, and parts from it.
    fn serve_stream<L, M, W, J, R>(
        &self,
        rt: &R,
        alloc: Global,
        floor: &Floor<L, M, W, J>,
        callers: &Callers,
        client: LineStream,
    ) -> Result<(), TalkFault>
    where
        L: Run,
        M: Accounts,
        W: Write + Drop,
        J: Telling,
        R: Net<Listener = TcpListener, Stream = TcpStream> + Wait + Clock,
    {
        let Ok((voice, lines)) = opened(rt, alloc, self.door.form, &client) else {
            return Err(TalkFault::OutOfMemory);
        };
        let mut lines = lines;
        let Ok(wakeup) = lines.wakeup() else {
            return Err(TalkFault::OutOfMemory);
        };
        let served = match callers.enter(rt, wakeup)? {
            Some(place) => {
                let served = self.serve_lines(rt, alloc, floor, callers, place, &voice, &mut lines);
                callers.leave(rt, place);
                served
            }
            None => voice.say(rt, &Said::Full),
        };
        part(client);
        served
    }

    /// Serves the client at a place among the connections.
    fn serve_lines<L, M, W, J, V, I, R>(
        &self,
        rt: &R,
        alloc: Global,
        floor: &Floor<L, M, W, J>,
        callers: &Callers,
        place: usize,
        voice: &Voice<V>,
        lines: &mut InputLines<I>,
    ) -> Result<(), TalkFault>
    where
        L: Run,
        M: Accounts,
        W: Write + Drop,
        J: Telling,
        V: Write + Drop,
        I: Read + Drop,
        R: Wait + Clock,
    {
        match greeted(rt, self.door.users.as_slice(), voice, lines) {
            Ok(Some(guest)) => {
                serve_client(rt, alloc, floor, callers, place, guest, voice, lines)
            }
            Ok(None) => Ok(()),
            Err(fault) => Err(fault),
        }
    }
}

/// The voice of a client and its lines, of which none was read.
fn opened<R: Net>(
    rt: &R,
    alloc: Global,
    form: json_lines::Form,
    client: &LineStream,
) -> io::Result<(Voice<LineStream>, InputLines<LineStream>)> {
    client.prepare(Duration::from_secs(MOST_SECONDS))?;
    let voice = Voice::new(alloc, form, client.try_clone()?);
    let input = client.try_clone()?;
    let fd = input.fd();
    let lines = InputLines::of_client(rt, alloc, DeskInput { input, fd })?;
    Ok((voice, lines))
}

/// Parts from a client: what was written reaches it, since what it sends meanwhile is read, for a second at most.
fn part(client: LineStream) {
    let mut client = client;
    if client.end_writing().is_err() {
        return;
    }
    if client
        .set_read_timeout(Duration::from_millis(PART_MILLIS))
        .is_err()
    {
        return;
    }
    let mut rest = [0; 4096];
    for _ in 0..PART_READS {
        match client.read(&mut rest) {
            Ok(0) | Err(_) => return,
            Ok(_) => {}
        }
    }
}
