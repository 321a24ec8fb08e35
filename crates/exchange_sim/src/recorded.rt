//! The bytes that went over one connection.

ghost use Rattle.std.specs.Prelude.{◌≡◌, [], ◌++◌, OnOk, OnErr};

use std::alloc::{AllocError, Global};
use std::marker::Model;

/// The bytes that went over one connection: those that writes took and those that reads gave.
#[derive(Drop)]
pub struct Recorded {
    written: Vec<u8>,
    read: Vec<u8>,
}

impl Model for Recorded {
    ghost use Rattle.link.specs.Traffic.{Traffic};

    ghost Value = { Traffic };

    ghost view = { λ recorded. record { written = recorded.written.items; read = recorded.read.items } };
}

impl Recorded {
    /// Nothing went over it yet. It takes no memory.
    pub fn new(alloc: Global) -> Recorded
        ensures { result ≡ record { written = []; read = [] } }
    {
        Recorded {
            written: Vec::new(alloc),
            read: Vec::new(alloc),
        }
    }

    /// A write took these bytes. The only refusal is out of memory.
    pub fn wrote(&mut self, bytes: &[u8]) -> Result<(), AllocError>
        ensures ok { OnOk result (self.new ≡ record { written = self.old.written ++ bytes.now; read = self.old.read }) }
        ensures err { OnErr result (self.new ≡ self.old) }
    {
        self.written.extend_from_slice(bytes)
    }

    /// A read gave these bytes. The only refusal is out of memory.
    pub fn gave(&mut self, bytes: &[u8]) -> Result<(), AllocError>
        ensures ok { OnOk result (self.new ≡ record { written = self.old.written; read = self.old.read ++ bytes.now }) }
        ensures err { OnErr result (self.new ≡ self.old) }
    {
        self.read.extend_from_slice(bytes)
    }
}
