//! A link over TCP.

ghost use Rattle.std.specs.Prelude.{◌≡◌, true, length, take, [], Some, IfOk, IfSome, MatchResult};
ghost use Rattle.std.specs.List.{All};
ghost use Rattle.std.specs.Net.ToAddrs.{host_addrs};
ghost use Rattle.std.proofs.Props.{props};
ghost use Rattle.link.specs.Counts.{Fits, IsSomeOf, Rises};
ghost use Rattle.link.specs.Goals.{LeadsTo, next_turn};
ghost use Rattle.link.specs.Told.{is_begun};
ghost use Rattle.link.specs.Traffic.{Tells, Dials, Gives, Takes, Stays};

use crate::dial_error::{DialError, LastDial};
use crate::goal::Goal;
use crate::got::Got;
use crate::host::look_up;
use crate::link::Link;
use crate::link_fault::LinkFault;
use crate::poller::Poller;
use crate::rest::Rest;
use crate::told::Told;
use mio::net::TcpStream;
use std::alloc::Global;
use std::io;
use std::io::{ErrorKind, Read, Write};
use std::net::{HostAddrs, Net, Shutdown, SocketAddr};
use std::sync::Arc;
use std::time::{Clock, Duration, Instant};

/// How many seconds a dial waits for an answer from one address.
const DIAL_SECONDS: u64 = 1;

/// How many addresses of a host a dial tries at most.
const MOST_ADDRESSES: usize = 8;

/// How many seconds the writes of some bytes wait, from the first that finds no room until all are taken.
const WRITE_SECONDS: u64 = 5;

/// How many reads empty a connection that is shut, at most.
const LAST_READS: u32 = 64;

/// How many bytes such a read takes at most.
const LAST_BYTES: usize = 4_096;

/// How many reads in a row ask nothing of the system, at most, where no rest came between.
const MOST_PASSED: u32 = 2;

/// A link over TCP. A dial looks its host up, and tries up to eight of the addresses that this gives, a second each; it
/// also waits as long as the resolver does. Writes wait five seconds from the first that finds no room, until one takes
/// all of its bytes; a read never waits. Its traffic is what the system answered: the bytes of each write that it took
/// and of each read that it gave. What a socket took may still be lost.
///
/// A read gives `Nothing` at once, without asking the system, where neither a rest nor the read before saw more to
/// read; but at most two in a row do, unless a rest came between.
#[derive(Drop)]
pub struct TcpLink<'a, N: Net + Clock> {
    rt: &'a N,
    goal: Goal,
    // The place of the host whose turn it is.
    turn: usize,
    poller: Poller,
    how: Rest,
    stream: Option<TcpStream>,
    // Whether a byte may be there that the poller won't tell of again.
    may_read: bool,
    // How many reads asked nothing of the system, since the last rest or the last one that did.
    passed: u32,
    // Since when writes find no room, until one takes all of its bytes.
    full_since: Option<Instant>,
    faults: u64,
    last_dial: Option<Arc<LastDial, Global>>,
    told: Told,
    ghost begun: { IfSome stream (λ _. is_begun told.traffic ≡ true) } by { Prim.hlevel props },
}

impl<'a, N: Net + Clock> TcpLink<'a, N> {
    /// A link to one address that isn't dialled yet. It waits with this poller, which watches nothing yet.
    pub fn new(rt: &'a N, addr: SocketAddr, poller: Poller, how: Rest) -> TcpLink<'a, N>
        ensures goal { result.goal ≡ Goal.At addr }
        ensures turn { result.turn ≡ 0 }
        ensures faults { result.faults ≡ 0 }
        ensures traffic { result.told.traffic ≡ [] }
    {
        TcpLink::to(rt, Goal::At(addr), poller, how)
    }

    /// The same to a goal.
    pub fn to(rt: &'a N, goal: Goal, poller: Poller, how: Rest) -> TcpLink<'a, N>
        ensures goal { result.goal ≡ goal }
        ensures turn { result.turn ≡ 0 }
        ensures faults { result.faults ≡ 0 }
        ensures traffic { result.told.traffic ≡ [] }
    {
        TcpLink {
            rt,
            goal,
            turn: 0,
            poller,
            how,
            stream: None,
            may_read: false,
            passed: 0,
            full_since: None,
            faults: 0,
            last_dial: None,
            told: Told::new(),
        }
    }

    /// From now on it tells there why a dial failed.
    pub fn tell_on(&mut self, last_dial: Arc<LastDial, Global>)
        ensures goal { self.new.goal ≡ self.old.goal }
        ensures turn { self.new.turn ≡ self.old.turn }
        ensures faults { self.new.faults ≡ self.old.faults }
        ensures traffic { self.new.told.traffic ≡ self.old.told.traffic }
    {
        self.last_dial = Some(last_dial);
    }

    /// Connects to the address of its goal, or to one that the host whose turn it is was looked up to.
    fn connect(&mut self, addr: SocketAddr) -> Result<TcpStream, DialError>
        requires leads { LeadsTo self.old.goal self.old.turn addr }
        ensures goal { self.new.goal ≡ self.old.goal }
        ensures turn { self.new.turn ≡ self.old.turn }
        ensures faults { self.new.faults ≡ self.old.faults }
        ensures traffic { self.new.told.traffic ≡ self.old.told.traffic }
    {
        connect(self.rt, addr, &mut self.poller).map_err(|error| DialError::of(error.kind()))
    }

    /// Connects to the first of these addresses that answers.
    fn connect_to_one(&mut self, found: HostAddrs) -> Result<TcpStream, DialError>
        requires leads { All (LeadsTo self.old.goal self.old.turn) (host_addrs found) }
        ensures goal { self.new.goal ≡ self.old.goal }
        ensures turn { self.new.turn ≡ self.old.turn }
        ensures faults { self.new.faults ≡ self.old.faults }
        ensures traffic { self.new.told.traffic ≡ self.old.told.traffic }
    {
        let mut found = found;
        let mut last = DialError::NoSuchHost;
        for _ in 0..MOST_ADDRESSES {
            let Some(addr) = found.next() else {
                break;
            };
            match self.connect(addr) {
                Ok(stream) => return Ok(stream),
                Err(error) => last = error,
            }
        }
        Err(last)
    }

    /// Connects to its goal; where that is hosts, to the one whose turn it is.
    fn reach(&mut self) -> Result<TcpStream, DialError>
        ensures goal { self.new.goal ≡ self.old.goal }
        ensures turn { self.new.turn ≡ self.old.turn }
        ensures faults { self.new.faults ≡ self.old.faults }
        ensures traffic { self.new.told.traffic ≡ self.old.told.traffic }
    {
        let found = match &self.goal {
            Goal::At(addr) => {
                let addr = *addr;
                return self.connect(addr);
            }
            Goal::Hosts(hosts) => look_up(self.rt, hosts, self.turn)?,
        };
        self.connect_to_one(found)
    }

    /// Whether a read would find nothing, as far as is known, and so is to ask nothing of the system.
    fn passes(&mut self) -> bool
        ensures faults { self.new.faults ≡ self.old.faults }
        ensures traffic { self.new.told.traffic ≡ self.old.told.traffic }
    {
        if self.stream.is_none() || self.may_read || self.passed >= MOST_PASSED {
            self.passed = 0;
            return false;
        }
        self.passed += 1;
        true
    }

    /// Reads what is there.
    fn read_now(&mut self, buf: &mut [u8]) -> io::Result<Got>
        ensures bound { IfOk result (λ got. Fits got (length buf.new)) }
        ensures traffic { MatchResult result (λ got. Gives got buf.new self.old.told.traffic self.new.told.traffic)
            (λ _. Stays self.old.told.traffic self.new.told.traffic) }
        ensures faults { self.new.faults ≡ self.old.faults }
    {
        let Some(stream) = &mut self.stream else {
            return Ok(Got::End);
        };
        match stream.read(buf) {
            Ok(0) => Ok(Got::End),
            Ok(n) => {
                // A read that leaves room has taken all there was, and the poller tells of what comes behind it.
                self.may_read = n == buf.len() || self.poller.is_ending();
                self.told = self.told.gave(buf.split_at(n).0);
                Ok(Got::Bytes(n))
            }
            Err(e) if e.kind() == ErrorKind::WouldBlock => {
                self.may_read = false;
                Ok(Got::Nothing)
            }
            Err(e) if e.kind() == ErrorKind::Interrupted => Ok(Got::Nothing),
            Err(e) => Err(e),
        }
    }
}

/// Connects, and lets the poller watch the connection.
fn connect<N: Net + Clock>(rt: &N, addr: SocketAddr, poller: &mut Poller) -> io::Result<TcpStream> {
    let mut stream = TcpStream::connect(rt, addr)?;
    stream.set_nodelay(true)?;
    poller.watch(&mut stream)?;
    let begun = Instant::now(rt)?;
    for _ in 0..u64::MAX {
        if let Some(error) = stream.take_error()? {
            return Err(error);
        }
        if stream.peer_addr().is_ok() {
            return Ok(stream);
        }
        let left = Duration::from_secs(DIAL_SECONDS).saturating_sub(begun.elapsed(rt)?);
        if left.is_zero() {
            break;
        }
        poller.wait_for_room(&mut stream, left)?;
    }
    Err(io::Error::from(ErrorKind::TimedOut))
}

/// Waits for room in a connection that has none, and says whether to try again: not once writes have waited so long.
fn wait_for_room(
    clock: &impl Clock,
    poller: &mut Poller,
    stream: &mut TcpStream,
    full_since: &mut Option<Instant>,
) -> io::Result<()> {
    let now = Instant::now(clock)?;
    let passed = now.duration_since(*full_since.get_or_insert(now));
    let left = Duration::from_secs(WRITE_SECONDS).saturating_sub(passed);
    if left.is_zero() {
        return Err(io::Error::from(ErrorKind::TimedOut));
    }
    poller.wait_for_room(stream, left)
}

/// Writes the first of these bytes, by one write that the system takes. An `Err` took none.
fn write_once(
    clock: &impl Clock,
    poller: &mut Poller,
    stream: &mut TcpStream,
    full_since: &mut Option<Instant>,
    bytes: &[u8],
) -> io::Result<usize>
    ensures { IfOk result (λ n. IsSomeOf n (length bytes.now)) }
{
    for _ in 0..u64::MAX {
        match stream.write(bytes) {
            Ok(0) if !bytes.is_empty() => break,
            Ok(n) => {
                if n == bytes.len() {
                    *full_since = None;
                }
                return Ok(n);
            }
            Err(e) if e.kind() == ErrorKind::Interrupted => {}
            Err(e) if e.kind() == ErrorKind::WouldBlock => {
                wait_for_room(clock, poller, stream, full_since)?;
            }
            Err(e) => return Err(e),
        }
    }
    Err(io::Error::from(ErrorKind::TimedOut))
}

/// Takes what is unread, so that closing doesn't take back what was written last.
fn empty(stream: &mut TcpStream) {
    let mut buf = [0; LAST_BYTES];
    for _ in 0..LAST_READS {
        match stream.read(&mut buf) {
            Ok(0) => return,
            Ok(_) => {}
            Err(e) if e.kind() == ErrorKind::Interrupted => {}
            Err(_) => return,
        }
    }
}

impl<'a, N: Net + Clock> Link for TcpLink<'a, N> {
    ghost use Rattle.std.specs.Prelude.{Some};

    ghost wire = { λ link. Some link.told.traffic };

    ghost fault_count = { λ link. link.faults };

    fn dial(&mut self) -> Result<(), LinkFault>
        ensures wire { MatchResult result (λ _. Tells (Some self.old.told.traffic) (Some self.new.told.traffic) Dials)
            (λ _. Tells (Some self.old.told.traffic) (Some self.new.told.traffic) Stays) }
        ensures faults { Rises result self.old.faults self.new.faults }
        ensures goal { self.new.goal ≡ self.old.goal }
        ensures turn { self.new.turn ≡ next_turn self.old.goal self.old.turn }
    {
        self.stream = None;
        self.may_read = false;
        self.full_since = None;
        let reached = self.reach();
        self.turn = self.goal.turn_behind(self.turn);
        match reached {
            Ok(stream) => {
                self.told = self.told.dialled();
                self.stream = Some(stream);
                self.may_read = true;
                Ok(())
            }
            Err(error) => {
                if let Some(last_dial) = &self.last_dial {
                    last_dial.note(error);
                }
                Err(LinkFault::counted(&mut self.faults))
            }
        }
    }

    fn read(&mut self, buf: &mut [u8]) -> Result<Got, LinkFault> {
        if (buf.is_empty() && self.stream.is_some()) || self.passes() {
            return Ok(Got::Nothing);
        }
        match self.read_now(buf) {
            Ok(got) => Ok(got),
            Err(_) => Err(LinkFault::counted(&mut self.faults)),
        }
    }

    fn heard(&mut self, _left: usize) {}

    fn came_up(&mut self)
        ensures wire { Some self.new.told.traffic ≡ Some self.old.told.traffic }
        ensures faults { self.new.faults ≡ self.old.faults }
        ensures first { self.new.turn ≡ 0 }
    {
        self.turn = 0;
    }

    fn write(&mut self, bytes: &[u8]) -> Result<usize, LinkFault> {
        let Some(stream) = &mut self.stream else {
            return Err(LinkFault::counted(&mut self.faults));
        };
        match write_once(
            self.rt,
            &mut self.poller,
            stream,
            &mut self.full_since,
            bytes,
        ) {
            Ok(n) => {
                self.told = self.told.wrote(bytes.split_at(n).0);
                Ok(n)
            }
            Err(_) => Err(LinkFault::counted(&mut self.faults)),
        }
    }

    fn rest(&mut self, most: Duration) {
        if self.may_read {
            return;
        }
        let is_ready = match self.how {
            Rest::Sleep => self.poller.sleep(most),
            Rest::Spin => self.poller.spin(self.rt, most),
        };
        self.may_read = is_ready && self.stream.is_some();
        self.passed = 0;
    }

    fn shut(&mut self) -> Result<(), LinkFault> {
        self.may_read = false;
        let Some(mut stream) = self.stream.take() else {
            return Ok(());
        };
        empty(&mut stream);
        match stream.shutdown(Shutdown::Both) {
            Ok(()) => Ok(()),
            Err(_) => Err(LinkFault::counted(&mut self.faults)),
        }
    }

    fn faults(&self) -> u64 {
        self.faults
    }
}
