//! An input that is watched.

ghost use Rattle.std.specs.Prelude.{◌≡◌, true, false};

use crate::wakeup::Wakeup;
use mio::unix::SourceFd;
use mio::{Events, Interest, Poll, Token};
use std::alloc::Global;
use std::io;
use std::net::Net;
use std::os::fd::RawFd;
use std::sync::Arc;
use std::time::Duration;

/// What is waited for: the input, and what ends a wait.
const SOURCES: usize = 2;

const INPUT: Token = Token(0);

/// What tells whether the input of this descriptor may be read without waiting. A file is always ready, and the system
/// doesn't watch it.
#[derive(Drop)]
pub struct Readiness {
    fd: RawFd,
    poll: Poll,
    events: Events,
    is_watched: bool,
    wakeup: Arc<Wakeup, Global>,
}

impl Readiness {
    /// Watches the input of a descriptor. The only refusals are out of memory and of descriptors.
    pub fn new(net: &impl Net, alloc: Global, fd: RawFd) -> io::Result<Readiness> {
        let poll = Poll::new(net)?;
        let events = Events::with_capacity(alloc, SOURCES)?;
        let wakeup = Arc::new(alloc, Wakeup::new(poll.registry())?)?;
        let watched = poll
            .registry()
            .register(&mut SourceFd(&fd), INPUT, Interest::READABLE);
        Ok(Readiness {
            fd,
            poll,
            events,
            is_watched: watched.is_ok(),
            wakeup,
        })
    }

    /// What ends its waits, for another thread.
    pub fn wakeup(&self) -> io::Result<Arc<Wakeup, Global>> {
        Ok(self.wakeup.clone()?)
    }

    /// Waits until a read would give something or the wait is ended, so long at most, and says whether a read would.
    /// Where the system can't tell, the read itself is to show it.
    pub fn wait(&mut self, most: Duration) -> bool
        ensures { self.old.is_watched ≡ false → result ≡ true }
    {
        if !self.is_watched {
            return true;
        }
        match self.poll_once(most) {
            Ok(is_ready) => is_ready,
            Err(_) => true,
        }
    }

    /// Asks the system anew each time, since it tells a change alone.
    fn poll_once(&mut self, most: Duration) -> io::Result<bool> {
        self.poll
            .registry()
            .reregister(&mut SourceFd(&self.fd), INPUT, Interest::READABLE)?;
        self.poll.poll(&mut self.events, Some(most))?;
        Ok(self.events.iter().any(|event| event.token() == INPUT))
    }
}
