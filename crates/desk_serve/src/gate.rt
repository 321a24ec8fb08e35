//! Where a server is dealt its clients.

use mio::{Registry, Token, Waker};
use std::alloc::{AllocError, Global};
use std::net::TcpStream;
use std::sync::{Mutex, Wait};
use std::{io, mem};

/// The token of what ends a server's wait. Its clients have others.
const BELL: Token = Token(0);

/// Where a server is dealt its clients, and what ends its wait.
#[derive(Drop)]
pub(crate) struct Gate {
    dealt: Mutex<Vec<TcpStream>>,
    waker: Waker,
}

impl Gate {
    /// Of a server that waits with this registry's poll, and was dealt nobody.
    pub fn new(alloc: Global, registry: &Registry) -> io::Result<Gate> {
        Ok(Gate {
            dealt: Mutex::new(Vec::new(alloc)),
            waker: Waker::new(registry, BELL)?,
        })
    }

    /// Deals a client to the server. The only refusal is out of memory.
    pub fn deal(&self, rt: &impl Wait, client: TcpStream) -> Result<(), AllocError> {
        let pushed = self.dealt.lock(rt).push(client).is_ok();
        self.ring();
        if pushed { Ok(()) } else { Err(AllocError) }
    }

    /// Ends the server's wait: the one that is under way, or else the next.
    pub fn ring(&self) {
        // It fails only where the system's counter is full, and then the wait has been ended.
        let _ = self.waker.wake();
    }

    /// The clients that were dealt since it was asked last.
    pub fn dealt(&self, rt: &impl Wait, alloc: Global) -> Vec<TcpStream> {
        mem::replace(&mut *self.dealt.lock(rt), Vec::new(alloc))
    }
}
