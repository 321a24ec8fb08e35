//! What the host is told.

ghost use Rattle.std.specs.Prelude.{◌≡◌, [], ◌++◌, map, IfOk, OnOk};
ghost use Rattle.std.specs.List.{concat};
ghost use Rattle.embed.specs.Said.{line_of, frame_said};

use crate::stopped::Stopped;
use desk_words::VenueName;
use std::alloc::Global;
use std::marker::Model;
use std::mem;

/// How many bytes a packet has before the next one begins.
const FULL: usize = 32_768;

/// What came of an event: lines, and frames that are to be written. It goes to the host in packets of whole lines and
/// whole frames.
#[derive(Drop)]
pub struct Said {
    alloc: Global,
    full: Vec<Vec<u8>>,
    packet: Vec<u8>,
}

impl Model for Said {
    ghost use Rattle.std.specs.Prelude.{ℕ, List, map, ◌++◌};
    ghost use Rattle.std.specs.List.{concat};

    ghost Value = { List ℕ };

    ghost view = { λ said. concat (map (λ packet. packet.items) said.full.items) ++ said.packet.items };
}

impl Said {
    /// Nothing yet. It takes no memory.
    pub fn new(alloc: Global) -> Said
        ensures { result ≡ [] }
    {
        Said {
            alloc,
            full: Vec::new(alloc),
            packet: Vec::new(alloc),
        }
    }

    /// The packets, in order.
    pub fn into_packets(self) -> Result<Vec<Vec<u8>>, Stopped>
        ensures { IfOk result (λ packets. concat (map (λ packet. packet.items) packets.items) ≡ self) }
    {
        let Said {
            alloc: _,
            mut full,
            packet,
        } = self;
        full.push(packet)?;
        Ok(full)
    }

    /// A line.
    pub fn line(&mut self, text: &str) -> Result<(), Stopped>
        ensures { OnOk result (self.new ≡ self.old ++ line_of text.now) }
    {
        self.bytes(text.as_bytes())?;
        self.end_packet()
    }

    /// A frame that is to be written to a venue: a line with its length, its bytes, and the end of a line.
    pub fn frame(&mut self, venue: &VenueName, frame: &[u8]) -> Result<(), Stopped>
        ensures { OnOk result (self.new ≡ self.old ++ frame_said venue.now frame.now) }
    {
        let length = frame.len();
        let head = format!(in self.alloc; "write {venue} {length}")?;
        self.bytes(head.as_bytes())?;
        self.bytes(frame)?;
        self.end_packet()
    }

    /// Bytes, and the end of a line.
    fn bytes(&mut self, bytes: &[u8]) -> Result<(), Stopped>
        ensures { OnOk result (self.new ≡ self.old ++ line_of bytes.now) }
    {
        self.packet.extend_from_slice(bytes)?;
        self.packet.push(b'\n')?;
        Ok(())
    }

    /// Another packet begins, once this one is full.
    fn end_packet(&mut self) -> Result<(), Stopped>
        ensures { OnOk result (self.new ≡ self.old) }
    {
        if self.packet.len() >= FULL {
            let packet = mem::replace(&mut self.packet, Vec::new(self.alloc));
            self.full.push(packet)?;
        }
        Ok(())
    }
}
