//! A desk gets its journal, and gives it back.

ghost use Rattle.std.specs.Prelude.{◌≡◌};
ghost use Rattle.release_lock.specs.Noted.{IsNoted};

use crate::held_desk::HeldDesk;
use crate::release_lock::notes_of;
use crate::{LockedDesk, ReleaseLock, Run};
use kept_link::{Telling, Untold};
use std::alloc::{AllocError, Global};
use std::sync::Mutex;
use std::sync::atomic::AtomicBool;

impl<L: Run> LockedDesk<L> {
    /// The same desk, with a journal which has kept of each of its sweeps, once and in order, that it was placed.
    pub fn noting_in<J: Telling>(self, journal: J) -> LockedDesk<L, J>
        requires { IsNoted self (J.told journal) }
        ensures { result ≡ self }
    {
        let LockedDesk {
            desk,
            total,
            feeds,
            sweeps,
            book,
            dollars,
            journal: _,
        } = self;
        LockedDesk {
            desk,
            total,
            feeds,
            sweeps,
            book,
            dollars,
            journal,
        }
    }
}

impl<L: Run, J: Telling> LockedDesk<L, J> {
    /// The desk by itself, and its journal.
    pub fn part(self) -> (LockedDesk<L>, J)
        ensures desk { result.0 ≡ self }
        ensures noted { IsNoted self (J.told result.1) }
    {
        let LockedDesk {
            desk,
            total,
            feeds,
            sweeps,
            book,
            dollars,
            journal,
        } = self;
        let locked = LockedDesk {
            desk,
            total,
            feeds,
            sweeps,
            book,
            dollars,
            journal: Untold,
        };
        (locked, journal)
    }
}

impl<L: Run, J: Telling> ReleaseLock<L, J> {
    /// A desk behind a lock again, whose venues are noted as they are. None is held.
    pub fn of_locked(
        alloc: Global,
        locked: LockedDesk<L, J>,
    ) -> Result<ReleaseLock<L, J>, AllocError> {
        let desk = locked.desk();
        let notes = notes_of(alloc, desk.venues() as u8)?;
        for note in &notes {
            note.take(desk);
        }
        Ok(ReleaseLock {
            locked: Mutex::new(HeldDesk::free(locked)),
            notes,
            halted: AtomicBool::new(false),
        })
    }
}
