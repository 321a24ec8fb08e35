//! Where the clients of a day's lines come in.

use crate::line_stream::{LineListener, LineStream};
use readiness::{Readiness, Wakeup};
use std::alloc::Global;
use std::io::{self, ErrorKind};
use std::net::Net;
use std::sync::atomic::{AtomicBool, Ordering};
use std::sync::{Arc, Mutex, Wait};
use std::thread;
use std::time::{Clock, Duration};

/// How many seconds a server waits for a client before it looks at the day by itself. The end of the day ends the wait.
const LOOK_SECONDS: u64 = 10;

/// For how many milliseconds nobody is let in where the system lets nobody in, as for lack of descriptors.
const PAUSE_MILLIS: u64 = 20;

/// What waits for clients.
#[derive(Drop)]
struct Listening {
    listener: LineListener,
    readiness: Readiness,
}

/// Where the clients come in: one server waits for the next one, and the others for their turn to.
#[derive(Drop)]
pub(crate) struct Entrance {
    listening: Mutex<Listening>,
    wakeup: Arc<Wakeup, Global>,
}

impl Entrance {
    /// Clients of this listener come in.
    pub fn new(net: &impl Net, alloc: Global, listener: LineListener) -> io::Result<Entrance> {
        let readiness = Readiness::new(net, alloc, listener.fd())?;
        let wakeup = readiness.wakeup()?;
        Ok(Entrance {
            listening: Mutex::new(Listening {
                listener,
                readiness,
            }),
            wakeup,
        })
    }

    /// What has a server look whether the day is over.
    pub fn wakeup(&self) -> io::Result<Arc<Wakeup, Global>> {
        Ok(self.wakeup.clone()?)
    }

    /// The next client, if one comes before the day is over.
    pub fn next_client<R: Wait + Clock>(&self, rt: &R, is_over: &AtomicBool) -> Option<LineStream> {
        let mut listening = self.listening.lock(rt);
        if is_over.load(Ordering::SeqCst) {
            return None;
        }
        let Listening {
            listener,
            readiness,
        } = &mut *listening;
        if !readiness.wait(Duration::from_secs(LOOK_SECONDS)) {
            return None;
        }
        match listener.accept() {
            Ok(client) => Some(client),
            Err(fault) if fault.kind() == ErrorKind::WouldBlock => None,
            Err(_) => {
                thread::sleep(rt, Duration::from_millis(PAUSE_MILLIS));
                None
            }
        }
    }
}
