//! The clients of one server, and what it waits for them with.

use crate::client::{Client, Fate};
use crate::gate::Gate;
use crate::listener::Newcomer;
use crate::outgoing::Outgoing;
use crate::page::Page;
use desk_http::{Day, Refused, refuse};
use mio::unix::SourceFd;
use mio::{Events, Interest, Poll, Token};
use std::alloc::{AllocError, Global};
use std::io;
use std::net::{Net, TcpStream};
use std::os::fd::AsRawFd;
use std::sync::Wait;
use std::time::{Clock, Duration};

/// How many clients of a page may be connected at once, but for those who follow the day. With 16 venues and as many
/// clients of lines as may be, they leave descriptors of the usual 1,024 for dials and journals.
const MOST_CLIENTS: usize = 512;

/// How many clients a wait hears of at once.
const EVENTS: usize = 256;

/// How many milliseconds pass between two looks whether a client was waited for too long.
const LOOK_MILLIS: u64 = 100;

/// How many milliseconds a server without clients waits before it looks at the day by itself. The end of the day ends
/// the wait.
const REST_MILLIS: u64 = 10_000;

/// The clients of one server, each at a place of its own, and what it waits for them with.
#[derive(Drop)]
pub(crate) struct Hall {
    alloc: Global,
    poll: Poll,
    events: Events,
    clients: Vec<Option<Client>>,
    /// The places at which nobody is.
    free: Vec<usize>,
    /// The places of those that go on as soon as others had their turn.
    ready: Vec<usize>,
    /// When it was looked last whether a client was waited for too long.
    looked: Duration,
}

/// The token of the client at a place: the first one is the gate's.
fn token_of(place: usize) -> Token {
    Token(place.saturating_add(1))
}

impl Hall {
    /// The hall of one server of so many, and its gate.
    pub fn new(net: &impl Net, alloc: Global, servers: usize) -> io::Result<(Hall, Gate)> {
        let poll = Poll::new(net)?;
        let gate = Gate::new(alloc, poll.registry())?;
        let (mut clients, mut free) = (Vec::new(alloc), Vec::new(alloc));
        for place in 0..MOST_CLIENTS.div_ceil(servers.max(1)) {
            clients.push(None)?;
            free.push(place)?;
        }
        let hall = Hall {
            alloc,
            poll,
            events: Events::with_capacity(alloc, EVENTS)?,
            clients,
            free,
            ready: Vec::new(alloc),
            looked: Duration::ZERO,
        };
        Ok((hall, gate))
    }

    /// Waits until a client may go on, one is dealt, or it is time to look.
    pub fn wait(&mut self) {
        let millis = if !self.ready.is_empty() {
            0
        } else if self.free.len() < self.clients.len() {
            LOOK_MILLIS
        } else {
            REST_MILLIS
        };
        let most = Duration::from_millis(millis);
        // Where the system can't tell who may go on, each client is looked at in time.
        let _ = self.poll.poll(&mut self.events, Some(most));
        for event in self.events.iter() {
            let Token(token) = event.token();
            if let Some(place) = token.checked_sub(1) {
                // One for which there is no memory waits for its next event.
                let _ = self.ready.push(place);
            }
        }
    }

    /// Lets the client at a place go.
    fn let_go(&mut self, place: usize) {
        if let Some(seat) = self.clients.get_mut(place) {
            if seat.take().is_some() {
                let _ = self.free.push(place);
            }
        }
    }

    /// The place of the client on whose connection nothing was asked for the longest time.
    fn longest_idle(&self) -> Option<usize> {
        let mut longest: Option<(usize, Duration)> = None;
        for (place, seat) in self.clients.iter().enumerate() {
            let Some(since) = seat.as_ref().and_then(|client| client.idle_since()) else {
                continue;
            };
            match longest {
                Some((_, earlier)) if earlier <= since => {}
                _ => longest = Some((place, since)),
            }
        }
        longest.map(|(place, _)| place)
    }

    /// Gives a client that came a place: where all are taken that of the client that is idle for the longest time, and
    /// where none is idle the client is told so and let go.
    pub fn seat(&mut self, page: &Page, stream: TcpStream, now: Duration) -> io::Result<()> {
        stream.set_nonblocking(true)?;
        stream.set_nodelay(true)?;
        if self.free.is_empty() {
            match self.longest_idle() {
                Some(place) => self.let_go(place),
                None => return self.turn_away(page, stream),
            }
        }
        let Some(place) = self.free.pop() else {
            return Ok(());
        };
        let both = Interest::READABLE | Interest::WRITABLE;
        let fd = stream.as_raw_fd();
        let watched = self
            .poll
            .registry()
            .register(&mut SourceFd(&fd), token_of(place), both);
        if watched.is_err() {
            self.free.push(place)?;
            return watched;
        }
        if let Some(seat) = self.clients.get_mut(place) {
            *seat = Some(Client::new(self.alloc, stream, now));
        }
        Ok(self.ready.push(place)?)
    }

    /// Tells a client that too many are connected.
    fn turn_away(&self, page: &Page, stream: TcpStream) -> io::Result<()> {
        let mut stream = stream;
        let mut outgoing = Outgoing::new(self.alloc);
        let output = &mut outgoing.bytes;
        let (door, run) = (&page.door, &page.run);
        refuse(self.alloc, door, run, false, Refused::Crowded, output)?;
        outgoing.send(&mut stream)?;
        Ok(())
    }

    /// The clients that may go on do, each once. It says whether one of them follows the day from now on.
    pub fn go_on<D: Day>(
        &mut self,
        rt: &impl Wait,
        day: &mut D,
        page: &Page,
        now: Duration,
    ) -> bool {
        let mut has_newcomer = false;
        let ready = std::mem::replace(&mut self.ready, Vec::new(self.alloc));
        for place in ready {
            let fate = match self.clients.get_mut(place) {
                Some(Some(client)) => client.go_on(rt, day, page, now),
                _ => continue,
            };
            has_newcomer |= matches!(fate, Ok(Fate::Follows(_)));
            self.follow_fate(rt, page, place, fate);
        }
        has_newcomer
    }

    /// Looks, once in a while, whether a client was waited for too long.
    pub fn look(&mut self, rt: &impl Wait, page: &Page, now: Duration) {
        if now.saturating_sub(self.looked) < Duration::from_millis(LOOK_MILLIS) {
            return;
        }
        self.looked = now;
        for place in 0..self.clients.len() {
            let fate = match self.clients.get_mut(place) {
                Some(Some(client)) => client.look(self.alloc, page, now),
                _ => continue,
            };
            self.follow_fate(rt, page, place, fate);
        }
    }

    /// What becomes of the client at a place.
    fn follow_fate(&mut self, rt: &impl Wait, page: &Page, place: usize, fate: io::Result<Fate>) {
        match fate {
            Ok(Fate::Stays) => {}
            Ok(Fate::GoesOn) => {
                if self.ready.push(place).is_err() {
                    self.let_go(place);
                }
            }
            Ok(Fate::Follows(after)) => self.hand_over(rt, page, place, after),
            Ok(Fate::Gone) | Err(_) => self.let_go(place),
        }
    }

    /// The client at a place, who has a place among those who follow the day, follows it from now on.
    fn hand_over(&mut self, rt: &impl Wait, page: &Page, place: usize, after: Option<u64>) {
        let client = match self.clients.get_mut(place) {
            Some(seat) => seat.take(),
            None => None,
        };
        let Some(client) = client else {
            return;
        };
        let _ = self.free.push(place);
        let Client {
            stream,
            outgoing,
            ..
        } = client;
        let fd = stream.as_raw_fd();
        // One that isn't watched any more is what is wanted.
        let _ = self.poll.registry().deregister(&mut SourceFd(&fd));
        let _ = page.admit(
            rt,
            Newcomer {
                stream,
                outgoing,
                after,
            },
        );
    }
}
