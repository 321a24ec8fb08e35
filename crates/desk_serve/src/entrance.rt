//! Where the clients of a page come in.

use readiness::{Readiness, Wakeup};
use std::alloc::Global;
use std::io;
use std::io::ErrorKind;
use std::net::{Net, TcpListener, TcpStream};
use std::os::fd::AsRawFd;
use std::sync::atomic::{AtomicBool, Ordering};
use std::sync::{Arc, Mutex, Wait};
use std::time::Duration;

/// How many seconds it is waited for a client before it looks at the day by itself. The end of the day ends the wait.
const LOOK_SECONDS: u64 = 10;

/// What waits for clients.
#[derive(Drop)]
struct Listening {
    listener: TcpListener,
    readiness: Readiness,
}

/// Where the clients of a page come in.
#[derive(Drop)]
pub(crate) struct Entrance {
    listening: Mutex<Listening>,
    wakeup: Arc<Wakeup, Global>,
}

impl Entrance {
    /// Clients of this listener come in, whose accepts don't wait.
    pub fn new(net: &impl Net, alloc: Global, listener: TcpListener) -> io::Result<Entrance> {
        let readiness = Readiness::new(net, alloc, listener.as_raw_fd())?;
        let wakeup = readiness.wakeup()?;
        Ok(Entrance {
            listening: Mutex::new(Listening {
                listener,
                readiness,
            }),
            wakeup,
        })
    }

    /// What has a server look whether the day is over.
    pub fn wakeup(&self) -> io::Result<Arc<Wakeup, Global>> {
        Ok(self.wakeup.clone()?)
    }

    /// The next client, if one comes before the day is over. A fault is the system's, as that descriptors are wanted.
    pub fn next_client(
        &self,
        rt: &impl Wait,
        is_over: &AtomicBool,
    ) -> io::Result<Option<TcpStream>> {
        let mut listening = self.listening.lock(rt);
        if is_over.load(Ordering::SeqCst) {
            return Ok(None);
        }
        let Listening {
            listener,
            readiness,
        } = &mut *listening;
        if !readiness.wait(Duration::from_secs(LOOK_SECONDS)) {
            return Ok(None);
        }
        match listener.accept() {
            Ok((client, _)) => Ok(Some(client)),
            Err(fault) if fault.kind() == ErrorKind::WouldBlock => Ok(None),
            Err(fault) => Err(fault),
        }
    }
}
