//! A port on which a simulated exchange listens.

use link::{Bell, Poller};
use mio::net::{TcpListener, TcpStream};
use std::alloc::Global;
use std::io;
use std::net::{Net, SocketAddr};
use std::sync::Arc;
use std::time::Duration;

/// How many milliseconds a turn waits at most for a client or its bytes, unless another time is asked for.
const TURN_MILLIS: u64 = 10;

/// A port of this machine on which a simulated exchange listens, and what it waits with.
#[derive(Drop)]
pub struct Port {
    listener: TcpListener,
    poller: Poller,
    turn: Duration,
}

impl Port {
    /// A free port of the loopback address. Refused where the system gives none, or memory is refused.
    pub fn open(net: &impl Net, alloc: Global) -> io::Result<Port> {
        let mut listener = TcpListener::bind(net, SocketAddr::from(([127, 0, 0, 1], 0)))?;
        let mut poller = Poller::new(net, alloc)?;
        poller.watch(&mut listener)?;
        Ok(Port {
            listener,
            poller,
            turn: Duration::from_millis(TURN_MILLIS),
        })
    }

    /// From now on a turn waits so long at most.
    pub fn wait_for(&mut self, turn: Duration) {
        self.turn = turn;
    }

    /// The bell that ends a turn's wait.
    pub fn bell(&self) -> io::Result<Arc<Bell, Global>> {
        self.poller.bell()
    }

    /// The address that clients dial.
    pub fn addr(&self) -> io::Result<SocketAddr> {
        self.listener.local_addr()
    }

    /// Waits for a turn at most, until a client or bytes of one come, or the bell is rung.
    pub(crate) fn rest(&mut self) {
        self.poller.sleep(self.turn);
    }

    /// The next client. Where none is there it waits for a turn.
    pub(crate) fn next_client(&mut self) -> Option<TcpStream> {
        match self.accept() {
            Ok(stream) => Some(stream),
            Err(_) => {
                self.rest();
                None
            }
        }
    }

    /// A client that waits to be accepted. Its bytes end a wait from now on.
    fn accept(&mut self) -> io::Result<TcpStream> {
        let (mut stream, _) = self.listener.accept()?;
        stream.set_nodelay(true)?;
        self.poller.watch(&mut stream)?;
        Ok(stream)
    }
}
