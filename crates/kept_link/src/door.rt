//! The one way to a link.

ghost use Rattle.std.specs.Prelude.{◌≡◌, length, IfOk, MatchResult};
ghost use Rattle.link.specs.Traffic.{Tells, Dials, Takes, TakesPart, Gives, Stays};
ghost use Rattle.link.specs.Counts.{Fits, Rises};
ghost use Rattle.kept_link.specs.Telling.{IsAllKept};

use crate::telling::Telling;
use link::{Got, Link, LinkFault, write_whole};
use std::marker::Model;
use std::time::Duration;

/// A link to which bytes go only where all that was told is kept. Nobody else has the link while it is behind its door.
/// Contracts see what the link tells of its traffic, and the faults that it counted.
#[derive(Drop)]
pub struct Door<K: Link> {
    link: K,
}

impl<K: Link> Model for Door<K> {
    ghost use Rattle.kept_link.specs.Door.{DoorParts};

    ghost Value = { DoorParts };

    ghost view = { λ d. record { wire = K.wire d.link; faults = K.fault_count d.link } };
}

impl<K: Link> Door<K> {
    /// The door to a link.
    pub fn new(link: K) -> Door<K>
        ensures wire { result.wire ≡ K.wire link }
        ensures faults { result.faults ≡ K.fault_count link }
    {
        Door { link }
    }

    /// The link, which has no door any more.
    pub fn into_link(self) -> K
        ensures wire { K.wire result ≡ self.wire }
        ensures faults { K.fault_count result ≡ self.faults }
    {
        let Door { link } = self;
        link
    }

    /// Writes all of these bytes, by as many writes as it takes. Whoever calls it shows that all that was told is kept.
    pub fn write<J: Telling>(&mut self, _journal: &J, bytes: &[u8]) -> Result<(), LinkFault>
        requires kept { IsAllKept (J.told _journal.now) }
        ensures wire { MatchResult result
            (λ _. Tells self.old.wire self.new.wire (Takes bytes.now))
            (λ _. Tells self.old.wire self.new.wire (TakesPart bytes.now)) }
        ensures faults { Rises result self.old.faults self.new.faults }
    {
        write_whole(&mut self.link, bytes)
    }

    /// Begins a new connection, and gives up the one before. No byte goes over it.
    pub fn dial(&mut self) -> Result<(), LinkFault>
        ensures wire { MatchResult result (λ _. Tells self.old.wire self.new.wire Dials)
            (λ _. Tells self.old.wire self.new.wire Stays) }
        ensures faults { Rises result self.old.faults self.new.faults }
    {
        self.link.dial()
    }

    /// Reads what is there, as far as the buffer goes. It never waits.
    pub fn read(&mut self, buf: &mut [u8]) -> Result<Got, LinkFault>
        ensures bound { IfOk result (λ got. Fits got (length buf.new)) }
        ensures wire { MatchResult result (λ got. Tells self.old.wire self.new.wire (Gives got buf.new))
            (λ _. Tells self.old.wire self.new.wire Stays) }
        ensures faults { Rises result self.old.faults self.new.faults }
    {
        self.link.read(buf)
    }

    /// Tells the link that a message was found in the bytes that it gave, behind which so many of them are left.
    pub fn heard(&mut self, left: usize)
        ensures wire { Tells self.old.wire self.new.wire Stays }
        ensures faults { self.new.faults ≡ self.old.faults }
    {
        self.link.heard(left);
    }

    /// Tells the link that the session over its connection came up.
    pub fn came_up(&mut self)
        ensures { self.new ≡ self.old }
    {
        self.link.came_up();
    }

    /// Waits until a byte may be there to read, the bell is rung, or this long has passed. It may return sooner.
    pub fn rest(&mut self, most: Duration)
        ensures wire { Tells self.old.wire self.new.wire Stays }
        ensures faults { self.new.faults ≡ self.old.faults }
    {
        self.link.rest(most);
    }

    /// Ends the connection, if there is one. Whatever it answers, there is none afterwards.
    pub fn shut(&mut self) -> Result<(), LinkFault>
        ensures wire { Tells self.old.wire self.new.wire Stays }
        ensures faults { Rises result self.old.faults self.new.faults }
    {
        self.link.shut()
    }
}
