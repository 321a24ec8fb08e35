//! What is still to be sent over a stream.

use bytes::BytesMut;
use std::alloc::Global;
use std::io;
use std::io::{ErrorKind, Write};

/// Bytes that are still to be sent, in their order.
#[derive(Drop)]
pub(crate) struct Outgoing {
    pub bytes: BytesMut,
}

impl Outgoing {
    /// None.
    pub fn new(alloc: Global) -> Outgoing {
        Outgoing {
            bytes: BytesMut::new(alloc),
        }
    }

    /// How many.
    pub fn len(&self) -> usize {
        self.bytes.len()
    }

    pub fn is_empty(&self) -> bool {
        self.bytes.is_empty()
    }

    /// Sends what the stream takes without waiting, and says whether it took any.
    pub fn send<S: Write>(&mut self, stream: &mut S) -> io::Result<bool> {
        let mut has_sent = false;
        for _ in 0..u64::MAX {
            if self.bytes.is_empty() {
                break;
            }
            match stream.write(self.bytes.as_slice()) {
                Ok(0) => return Err(io::Error::from(ErrorKind::WriteZero)),
                Ok(count) => {
                    self.bytes.advance(count.min(self.bytes.len()));
                    has_sent = true;
                }
                Err(fault) if fault.kind() == ErrorKind::Interrupted => {}
                Err(fault) if fault.kind() == ErrorKind::WouldBlock => break,
                Err(fault) => return Err(fault),
            }
        }
        Ok(has_sent)
    }
}
