//! What a thread waits with.

use crate::bell::Bell;
use mio::event::Source;
use mio::{Events, Interest, Poll, Token};
use std::alloc::Global;
use std::io;
use std::net::Net;
use std::sync::Arc;
use std::time::{Clock, Duration, Instant};

/// How many sources a wait hears of at once: the bell, and the one that is watched.
const SOURCES: usize = 2;

/// The token of the source that is watched.
const WATCHED: Token = Token(1);

/// What a thread waits with: for a source that it watches, as a connection, for its bell, or for a time.
#[derive(Drop)]
pub struct Poller {
    poll: Poll,
    events: Events,
    bell: Arc<Bell, Global>,
    // Whether the system said that no byte comes any more behind those that are there.
    is_ending: bool,
}

impl Poller {
    /// It watches nothing, and nobody has rung its bell.
    pub fn new(net: &impl Net, alloc: Global) -> io::Result<Poller> {
        let poll = Poll::new(net)?;
        let bell = Bell::new(poll.registry())?;
        Ok(Poller {
            poll,
            events: Events::with_capacity(alloc, SOURCES)?,
            bell: Arc::new(alloc, bell)?,
            is_ending: false,
        })
    }

    /// Its bell, for another thread to ring.
    pub fn bell(&self) -> io::Result<Arc<Bell, Global>> {
        Ok(self.bell.clone()?)
    }

    /// Watches a source, in place of the one before, which is to be dropped. Waits end where it may be read.
    pub fn watch<S: Source>(&mut self, source: &mut S) -> io::Result<()> {
        self.is_ending = false;
        self.poll
            .registry()
            .register(source, WATCHED, Interest::READABLE)
    }

    /// Waits until the source that is watched may be ready, the bell is rung, or so long has passed, rounded up to a
    /// millisecond. It may end sooner, and where a ring was left it doesn't wait. It says whether the source may be
    /// ready: has been since it said so last, since the system tells each change once.
    pub fn sleep(&mut self, most: Duration) -> bool {
        self.bell.begin_rest();
        let most = if self.bell.take_ring() {
            Duration::ZERO
        } else {
            most
        };
        let is_ready = self.poll_once(most);
        self.bell.end_rest();
        is_ready
    }

    /// The same, but it looks again and again in place of sleeping, and so takes a processor for itself.
    pub fn spin(&mut self, clock: &impl Clock, most: Duration) -> bool {
        let Ok(begun) = Instant::now(clock) else {
            return self.sleep(most);
        };
        for _ in 0..u64::MAX {
            let is_rung = self.bell.take_ring();
            if self.poll_once(Duration::ZERO) {
                return true;
            }
            if is_rung {
                return false;
            }
            match begun.elapsed(clock) {
                Ok(passed) if passed < most => {}
                _ => return false,
            }
        }
        false
    }

    /// Whether the other side of the source was seen to have written its last byte, or the source to have failed.
    pub(crate) fn is_ending(&self) -> bool {
        self.is_ending
    }

    /// Waits until a source may be written to as well, or so long has passed.
    pub(crate) fn wait_for_room<S: Source>(
        &mut self,
        source: &mut S,
        most: Duration,
    ) -> io::Result<()> {
        let both = Interest::READABLE | Interest::WRITABLE;
        self.poll.registry().reregister(source, WATCHED, both)?;
        self.poll_once(most);
        self.poll
            .registry()
            .reregister(source, WATCHED, Interest::READABLE)
    }

    /// Asks the system once, and says whether the source that is watched may be ready.
    fn poll_once(&mut self, most: Duration) -> bool {
        if self.poll.poll(&mut self.events, Some(most)).is_err() {
            return true;
        }
        let mut is_ready = false;
        for event in self.events.iter() {
            if event.token() == WATCHED {
                is_ready = true;
                self.is_ending = self.is_ending || event.is_read_closed() || event.is_error();
            }
        }
        is_ready
    }
}
