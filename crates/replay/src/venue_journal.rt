//! A venue's journal.

ghost use Rattle.std.specs.Prelude.{◌≡◌, ◌≤◌, ◌++◌, [], ◌∷◌, length, take, OnOk};
ghost use Rattle.replay.specs.declared.deed.Deed.TheVariants as deed;
ghost use Rattle.replay.specs.Noting.{with_noted};

use crate::deed::Deed;
use crate::noted::Noted;
use std::alloc::{AllocError, Global};
use std::marker::Model;

/// A venue's journal: whether its session's Logons say which number it expects next (789), its deeds in order, and the
/// number of the latest frame that came to the exchange.
#[derive(Debug, Drop)]
pub(crate) struct VenueJournal {
    next: bool,
    deeds: Vec<Deed>,
    reached: u64,
}

impl Model for VenueJournal {
    ghost use Rattle.replay.specs.Redoing.{JournalParts};

    ghost Value = { JournalParts };

    ghost view = { λ j. record { next = j.next; deeds = j.deeds.items; reached = j.reached } };
}

impl VenueJournal {
    /// A journal that is begun.
    pub(crate) fn new(alloc: Global, next: bool) -> VenueJournal
        ensures { result ≡ record { next = next; deeds = []; reached = 0 } }
    {
        VenueJournal {
            next,
            deeds: Vec::new(alloc),
            reached: 0,
        }
    }

    /// Whether the session's Logons say which number it expects next (789).
    pub(crate) fn next(&self) -> bool
        ensures { result ≡ self.now.next }
    {
        self.next
    }

    /// The deeds, in order.
    pub(crate) fn deeds(&self) -> &[Deed]
        ensures value { result.now ≡ self.now.deeds }
        ensures few { length self.now.deeds ≤ 9223372036854775807 }
    {
        self.deeds.as_slice()
    }

    /// The number of the latest frame that came to the exchange.
    pub(crate) fn reached(&self) -> u64
        ensures { result ≡ self.now.reached }
    {
        self.reached
    }

    /// Keeps what is kept of an event. The only refusal is out of memory.
    pub(crate) fn keep(&mut self, noted: Noted) -> Result<(), AllocError>
        ensures { OnOk result (self.new ≡ with_noted noted self.old) }
    {
        match noted {
            Noted::Nothing => {}
            Noted::Line(deed) => self.deeds.push(deed)?,
            Noted::Reached(frame) => self.reached = self.reached.max(frame),
        }
        Ok(())
    }

    /// The first so many deeds are kept, and a start is the next one: so many legs had left the desk. The only refusal
    /// is out of memory.
    pub(crate) fn start(&mut self, kept: usize, left: usize) -> Result<(), AllocError>
        ensures { OnOk result (self.new
            ≡ record self.old { deeds = take kept self.old.deeds ++ deed.Started left ∷ [] }) }
    {
        self.deeds.truncate(kept);
        self.deeds.push(Deed::Started(left))?;
        Ok(())
    }
}
