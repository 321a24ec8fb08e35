//! Bytes that wait to be sent.

ghost use Rattle.std.specs.Prelude.{◌≡◌, ◌++◌, [], drop, OnOk, OnErr};

use std::alloc::{AllocError, Global};
use std::marker::Model;

/// Bytes that wait to be sent, in order.
#[derive(Drop)]
pub struct Outbox {
    bytes: Vec<u8>,
    // How many of these were sent.
    sent: usize,
}

impl Model for Outbox {
    ghost use Rattle.std.specs.Prelude.{ℕ, List, ◌≤◌, length, drop};

    ghost Value = { List ℕ };

    ghost view = { λ outbox. drop outbox.sent outbox.bytes.items };

    ghost invariant = { λ outbox. outbox.sent ≤ length outbox.bytes.items };
}

impl Outbox {
    /// Nothing waits. It takes no memory.
    pub fn new(alloc: Global) -> Outbox
        ensures { result ≡ [] }
    {
        Outbox {
            bytes: Vec::new(alloc),
            sent: 0,
        }
    }

    /// The bytes that wait.
    pub fn waiting(&self) -> &[u8]
        ensures { result.now ≡ self.now }
    {
        self.bytes.as_slice().split_at(self.sent).1
    }

    /// Puts bytes behind those that wait. The only refusal is out of memory.
    pub fn put(&mut self, bytes: &[u8]) -> Result<(), AllocError>
        ensures ok { OnOk result (self.new ≡ self.old ++ bytes.now) }
        ensures err { OnErr result (self.new ≡ self.old) }
    {
        self.bytes.extend_from_slice(bytes)
    }

    /// So many of the bytes were sent, or all of them if fewer wait. Once nothing waits their room is used again.
    pub fn pass(&mut self, count: usize)
        ensures { self.new ≡ drop count self.old }
    {
        if count < self.bytes.len() - self.sent {
            self.sent += count;
        } else {
            self.bytes.clear();
            self.sent = 0;
        }
    }

    /// Nothing waits any more.
    pub fn clear(&mut self)
        ensures { self.new ≡ [] }
    {
        self.bytes.clear();
        self.sent = 0;
    }
}
