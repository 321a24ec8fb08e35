//! What a link in memory tells of itself.

ghost use Rattle.std.specs.Prelude.{◌≡◌, ◌+◌, min, [], MatchResult};
ghost use Rattle.link.specs.Counts.{Rises};
ghost use Rattle.link.specs.Traffic.{Dials, Takes, GivesBytes, Stays};

use crate::recorded::Recorded;
use link::LinkFault;
use std::alloc::Global;
use std::collections::VecDeque;
use std::marker::Model;

/// The bytes that went over each connection of a link, and how many of its calls failed.
#[derive(Drop)]
pub struct Recording {
    alloc: Global,
    // The connection dialled last, and those before it, the later ones first.
    last: Option<Recorded>,
    earlier: VecDeque<Recorded>,
    faults: u64,
}

impl Model for Recording {
    ghost use Rattle.std.specs.Prelude.{◌++◌, option_to_list};
    ghost use Rattle.exchange_sim.specs.Recording.{RecordingParts};

    ghost Value = { RecordingParts };

    ghost view = { λ recording. record {
      traffic = option_to_list recording.last ++ recording.earlier.items;
      faults = recording.faults;
    } };
}

impl Recording {
    /// Nothing was dialled yet, and nothing failed. It takes no memory.
    pub fn new(alloc: Global) -> Recording
        ensures { result ≡ record { traffic = []; faults = 0 } }
    {
        Recording {
            alloc,
            last: None,
            earlier: VecDeque::new(alloc),
            faults: 0,
        }
    }

    /// A call failed.
    pub fn fault(&mut self) -> LinkFault
        ensures traffic { self.new.traffic ≡ self.old.traffic }
        ensures faults { self.new.faults ≡ min (self.old.faults + 1) 18446744073709551615 }
    {
        LinkFault::counted(&mut self.faults)
    }

    /// A new connection was dialled. It fails only for lack of memory.
    pub fn dialled(&mut self) -> Result<(), LinkFault>
        ensures traffic { MatchResult result (λ _. Dials self.old.traffic self.new.traffic)
            (λ _. Stays self.old.traffic self.new.traffic) }
        ensures faults { Rises result self.old.faults self.new.faults }
    {
        let Some(last) = self.last.take() else {
            self.last = Some(Recorded::new(self.alloc));
            return Ok(());
        };
        match self.earlier.push_front(last) {
            Ok(()) => {
                self.last = Some(Recorded::new(self.alloc));
                Ok(())
            }
            Err(refused) => {
                self.last = Some(refused.value);
                Err(LinkFault::counted(&mut self.faults))
            }
        }
    }

    /// A write took these bytes. It fails where nothing was dialled yet, and for lack of memory.
    pub fn wrote(&mut self, bytes: &[u8]) -> Result<(), LinkFault>
        ensures traffic { MatchResult result (λ _. Takes bytes.now self.old.traffic self.new.traffic)
            (λ _. Stays self.old.traffic self.new.traffic) }
        ensures faults { Rises result self.old.faults self.new.faults }
    {
        let Some(last) = &mut self.last else {
            return Err(LinkFault::counted(&mut self.faults));
        };
        match last.wrote(bytes) {
            Ok(()) => Ok(()),
            Err(_) => Err(LinkFault::counted(&mut self.faults)),
        }
    }

    /// A read gave these bytes. It fails where nothing was dialled yet, and for lack of memory.
    pub fn gave(&mut self, bytes: &[u8]) -> Result<(), LinkFault>
        ensures traffic { MatchResult result (λ _. GivesBytes bytes.now self.old.traffic self.new.traffic)
            (λ _. Stays self.old.traffic self.new.traffic) }
        ensures faults { Rises result self.old.faults self.new.faults }
    {
        let Some(last) = &mut self.last else {
            return Err(LinkFault::counted(&mut self.faults));
        };
        match last.gave(bytes) {
            Ok(()) => Ok(()),
            Err(_) => Err(LinkFault::counted(&mut self.faults)),
        }
    }

    /// How many calls failed, up to the greatest number of its type.
    pub fn faults(&self) -> u64
        ensures { result ≡ self.now.faults }
    {
        self.faults
    }
}
