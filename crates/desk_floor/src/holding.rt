//! The desk is halted, and venues are paused.

ghost use Rattle.std.specs.Prelude.{◌≡◌};
ghost use Rattle.sweep_release.specs.Desk.{gate_down};
ghost use Rattle.sweep_release.specs.History.{KeptDesk};
ghost use Rattle.release_lock.specs.Held.{all_down};
ghost use Rattle.release_lock.specs.Locked.{Replays};

use crate::floor::Floor;
use crate::standing::Held;
use exec_collector::Accounts;
use kept_link::Telling;
use leg::VenueId;
use release_lock::Run;
use std::io::Write;
use std::sync::Wait;
use std::thread;
use std::time::{Clock, Duration};

/// How many milliseconds pass between two looks whether a worker is still sending.
const LOOK_MILLIS: u64 = 1;

/// For how many such looks a caller waits: two seconds.
const LOOKS: u64 = 2_000;

/// What came of a halt or a pause.
#[derive(Clone, Copy, Debug, PartialEq, Eq)]
pub struct Stopped {
    /// The first venue whose worker may still be sending a leg, after two seconds.
    pub sending: Option<VenueId>,
    /// Whether a desk that is started again with its journal does as this one does.
    pub is_kept: bool,
}

impl<L: Run, M: Accounts, W: Write + Drop, J: Telling> Floor<L, M, W, J> {
    /// By what a person holds a venue, if one does.
    pub fn held(&self, venue: VenueId) -> Option<Held> {
        if self.lock.is_halted() {
            return Some(Held::Halted);
        }
        if self.lock.is_paused(venue) {
            return Some(Held::Paused);
        }
        None
    }

    /// Halts the desk: every gate that is up is put down in one step, and no sweep is placed until `resume`. What is
    /// placed and unsent is withdrawn. It waits until no worker is in the midst of sending a leg, but no longer than
    /// two seconds.
    pub fn halt<R: Wait + Clock>(&self, rt: &R) -> Stopped {
        self.halt_desk(rt);
        self.tell_held();
        let is_kept = self.keep_held(rt);
        Stopped {
            sending: self.await_stop(rt),
            is_kept,
        }
    }

    /// Each gate is put down.
    fn halt_desk(&self, rt: &impl Wait)
        ensures { (before : KeptDesk) × (after : KeptDesk) × Replays before × Replays after
            × (after.desk ≡ all_down before.desk) }
    {
        self.lock.halt(rt);
    }

    /// The desk isn't halted any more: each venue that isn't paused takes orders again. It says whether a desk that is
    /// started again isn't halted either.
    pub fn resume(&self, rt: &impl Wait) -> bool {
        self.lock.resume(rt);
        self.tell_held();
        self.keep_held(rt)
    }

    /// Has a desk that is started again halted if this one is, and says whether that is kept. Where a halt and a
    /// resume come at once, the last of them keeps what the desk is by then.
    fn keep_held(&self, rt: &impl Wait) -> bool {
        let Some(mark) = &self.halt_mark else {
            return true;
        };
        let _turn = mark.turn.lock(rt);
        let kept = if self.lock.is_halted() {
            mark.set()
        } else {
            mark.clear()
        };
        kept.is_ok()
    }

    /// Pauses a venue, as `halt` does the desk. A desk that is started again doesn't know of it.
    pub fn pause<R: Wait + Clock>(&self, rt: &R, venue: VenueId) -> Stopped {
        self.pause_venue(rt, venue);
        self.tell_held();
        Stopped {
            sending: self.await_stop(rt),
            is_kept: true,
        }
    }

    /// The gate of a venue is put down.
    fn pause_venue(&self, rt: &impl Wait, venue: VenueId)
        ensures { (before : KeptDesk) × (after : KeptDesk) × Replays before × Replays after
            × (after.desk ≡ gate_down before.desk venue) }
    {
        self.lock.pause(rt, venue);
    }

    /// The venue isn't paused any more: it takes orders again, unless the desk is halted.
    pub fn unpause(&self, rt: &impl Wait, venue: VenueId) {
        self.lock.unpause(rt, venue);
        self.tell_held();
    }

    /// The workers and those who wait for news are to look what is held.
    fn tell_held(&self) {
        self.bells.ring_all();
        self.bells.news().tell();
    }

    /// Waits until no worker of a venue that is held may be sending a leg, and gives the first that still may after two
    /// seconds.
    fn await_stop<R: Wait + Clock>(&self, rt: &R) -> Option<VenueId> {
        for _ in 0..LOOKS {
            if self.sending().is_none() {
                return None;
            }
            thread::sleep(rt, Duration::from_millis(LOOK_MILLIS));
        }
        self.sending()
    }

    /// The first venue that is held and whose worker may be sending a leg.
    fn sending(&self) -> Option<VenueId> {
        for place in 0..self.names.len() {
            let Ok(venue) = VenueId::new(place as u8) else {
                return None;
            };
            if self.lock.is_held(venue) && self.lock.is_sending(venue) {
                return Some(venue);
            }
        }
        None
    }
}
