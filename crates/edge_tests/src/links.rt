//! A link in memory that takes and gives one byte a call, and a link over loopback.

use link::{Got, Link, LinkFault, Poller, Rest, TcpLink, write_whole};
use std::alloc::{AllocError, Global};
use std::collections::VecDeque;
use std::io::{ErrorKind, Read, Write};
use std::net::{Net, SocketAddr, TcpListener};
use std::test::Fail;
use std::time::{Clock, Duration};
use std::{io, thread};

// A connection in memory that can be dialled once. It takes one byte a write and gives one byte a read, and one of its
// calls fails.
#[derive(Drop)]
struct Trickle {
    dialled: bool,
    written: Vec<u8>,
    read: Vec<u8>,
    incoming: VecDeque<u8>,
    calls_left: u64,
    faults: u64,
}

impl Trickle {
    // A connection on which these bytes come, and so many calls succeed before one fails.
    fn new(alloc: Global, incoming: &[u8], calls_left: u64) -> Result<Trickle, AllocError> {
        let mut bytes = Vec::new(alloc);
        bytes.extend_from_slice(incoming)?;
        Ok(Trickle {
            dialled: false,
            written: Vec::new(alloc),
            read: Vec::new(alloc),
            incoming: VecDeque::from(bytes),
            calls_left,
            faults: 0,
        })
    }
}

// Counts one call down, and says whether it is the one that fails.
fn fails(calls_left: &mut u64) -> bool {
    match calls_left.checked_sub(1) {
        Some(left) => {
            *calls_left = left;
            false
        }
        None => {
            *calls_left = u64::MAX;
            true
        }
    }
}

impl Link for Trickle {
    ghost use Rattle.std.specs.Prelude.{Some, [], ◌∷◌, if◌then◌else◌};

    ghost wire = { λ link. Some (if link.dialled
        then record { written = link.written.items; read = link.read.items } ∷ [] else []) };

    ghost fault_count = { λ link. link.faults };

    fn dial(&mut self) -> Result<(), LinkFault> {
        if self.dialled || fails(&mut self.calls_left) {
            return Err(LinkFault::counted(&mut self.faults));
        }
        self.written.clear();
        self.read.clear();
        self.dialled = true;
        Ok(())
    }

    fn read(&mut self, buf: &mut [u8]) -> Result<Got, LinkFault> {
        if !self.dialled || fails(&mut self.calls_left) {
            return Err(LinkFault::counted(&mut self.faults));
        }
        if buf.is_empty() {
            return Ok(Got::Nothing);
        }
        let Some(byte) = self.incoming.pop_front() else {
            return Ok(Got::End);
        };
        if self.read.push(byte).is_err() {
            return Err(LinkFault::counted(&mut self.faults));
        }
        buf[0] = byte;
        Ok(Got::Bytes(1))
    }

    fn heard(&mut self, _left: usize) {}

    fn came_up(&mut self) {}

    fn write(&mut self, bytes: &[u8]) -> Result<usize, LinkFault> {
        if !self.dialled || fails(&mut self.calls_left) {
            return Err(LinkFault::counted(&mut self.faults));
        }
        if bytes.is_empty() {
            return Ok(0);
        }
        match self.written.push(bytes[0]) {
            Ok(()) => Ok(1),
            Err(_) => Err(LinkFault::counted(&mut self.faults)),
        }
    }

    fn rest(&mut self, _most: Duration) {}

    fn shut(&mut self) -> Result<(), LinkFault> {
        Ok(())
    }

    fn faults(&self) -> u64 {
        self.faults
    }
}

// Its first call is the dial, and each further one takes a byte.
#[test]
fn each_call_may_fail(rt: HostRuntime) -> Result<(), Fail> {
    for (calls_left, want) in [
        (0, ""),
        (1, ""),
        (2, "h"),
        (3, "he"),
        (4, "hel"),
        (5, "hell"),
    ] {
        let mut link = Trickle::new(rt.alloc(), b"", calls_left)?;
        assert_eq!(rt; link.dial().is_ok(), calls_left > 0);
        assert_eq!(rt; write_whole(&mut link, b"hello"), Err(LinkFault));
        assert_eq!(rt; link.written.as_slice(), want.as_bytes());
        assert!(rt; link.faults() > 0);
    }
    let mut link = Trickle::new(rt.alloc(), b"", 6)?;
    assert_eq!(rt; link.dial(), Ok(()));
    assert_eq!(rt; write_whole(&mut link, b"hello"), Ok(()));
    assert_eq!(rt; write_whole(&mut link, b""), Ok(()));
    assert_eq!(rt; link.faults(), 0);
    assert_eq!(rt; link.write(b"x"), Err(LinkFault));
    assert_eq!(rt; link.faults(), 1);
    assert_eq!(rt; link.written.as_slice(), b"hello".as_slice());
    Ok(())
}

#[test]
fn one_byte_a_read(rt: HostRuntime) -> Result<(), Fail> {
    let mut link = Trickle::new(rt.alloc(), b"ab", 100)?;
    let mut buf = [0; 4];
    assert_eq!(rt; link.read(&mut buf), Err(LinkFault));
    assert_eq!(rt; link.dial(), Ok(()));
    assert_eq!(rt; link.read(&mut buf), Ok(Got::Bytes(1)));
    assert_eq!(rt; buf[0], b'a');
    assert_eq!(rt; link.read(&mut buf), Ok(Got::Bytes(1)));
    assert_eq!(rt; buf[0], b'b');
    assert_eq!(rt; link.read(&mut buf), Ok(Got::End));
    assert_eq!(rt; link.read.as_slice(), b"ab".as_slice());
    Ok(())
}

// Takes one client, sends the first five bytes back and hangs up. Where none comes in five seconds it gives up.
fn echo_once(clock: &impl Clock, listener: &TcpListener) -> io::Result<()> {
    listener.set_nonblocking(true)?;
    for _turn in 0..5_000 {
        match listener.accept() {
            Ok((mut stream, _)) => {
                stream.set_read_timeout(Some(Duration::from_secs(5)))?;
                let mut buf = [0; 5];
                stream.read_exact(&mut buf)?;
                return stream.write_all(&buf);
            }
            Err(e) if e.kind() == ErrorKind::WouldBlock => {
                thread::sleep(clock, Duration::from_millis(1));
            }
            Err(e) => return Err(e),
        }
    }
    Err(io::Error::from(ErrorKind::TimedOut))
}

// What one client saw.
#[derive(Clone, Copy)]
struct Seen {
    first: Result<Got, LinkFault>,
    sent: Result<(), LinkFault>,
    answer: [u8; 5],
    last: Result<Got, LinkFault>,
    shut: Result<(), LinkFault>,
    behind: Result<Got, LinkFault>,
    faults: u64,
}

// Dials, writes five bytes, and reads up to the end, in five thousand reads at most.
fn ask<N: Net + Clock>(
    rt: &N,
    addr: SocketAddr,
    poller: Poller,
    how: Rest,
) -> Result<Seen, LinkFault> {
    let mut link = TcpLink::new(rt, addr, poller, how);
    link.dial()?;
    let mut buf = [0; 1];
    let first = link.read(&mut buf);
    let sent = write_whole(&mut link, b"hello");
    let mut answer = [0; 5];
    let mut at = 0usize;
    let mut last = Ok(Got::Nothing);
    for _turn in 0..5_000 {
        last = link.read(&mut buf);
        match last {
            Ok(Got::Bytes(_)) => {
                if at < 5 {
                    answer[at] = buf[0];
                    at += 1;
                }
            }
            Ok(Got::Nothing) => link.rest(Duration::from_secs(5)),
            Ok(Got::End) | Err(_) => break,
        }
    }
    let shut = link.shut();
    let behind = link.read(&mut buf);
    Ok(Seen {
        first,
        sent,
        answer,
        last,
        shut,
        behind,
        faults: link.faults(),
    })
}

#[test]
fn a_client_over_loopback(rt: HostRuntime) -> Result<(), Fail> {
    let listener = TcpListener::bind(&rt, "127.0.0.1:0")?;
    let addr = listener.local_addr()?;
    for how in [Rest::Sleep, Rest::Spin] {
        let poller = Poller::new(&rt, rt.alloc())?;
        let (served, seen) = thread::join(
            &rt,
            || echo_once(&rt, &listener),
            || ask(&rt, addr, poller, how),
        );
        served?;
        let seen = seen.ok().ok_or("a connection")?;
        assert_eq!(rt; seen.first, Ok(Got::Nothing));
        assert_eq!(rt; seen.sent, Ok(()));
        assert_eq!(rt; seen.answer.as_slice(), b"hello".as_slice());
        assert_eq!(rt; seen.last, Ok(Got::End));
        assert_eq!(rt; seen.shut, Ok(()));
        assert_eq!(rt; seen.behind, Ok(Got::End));
        assert_eq!(rt; seen.faults, 0);
    }
    Ok(())
}

#[test]
fn with_no_connection(rt: HostRuntime) -> Result<(), Fail> {
    let listener = TcpListener::bind(&rt, "127.0.0.1:0")?;
    let addr = listener.local_addr()?;
    drop(listener);
    let poller = Poller::new(&rt, rt.alloc())?;
    let mut link = TcpLink::new(&rt, addr, poller, Rest::Sleep);
    let mut buf = [0; 1];
    assert_eq!(rt; link.read(&mut buf), Ok(Got::End));
    assert_eq!(rt; link.shut(), Ok(()));
    assert_eq!(rt; link.faults(), 0);
    assert_eq!(rt; link.write(b"x"), Err(LinkFault));
    assert_eq!(rt; link.dial(), Err(LinkFault));
    assert_eq!(rt; link.faults(), 2);
    Ok(())
}
