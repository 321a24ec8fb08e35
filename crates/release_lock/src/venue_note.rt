//! What a venue's worker asks without the lock.

use crate::holds::Holds;
use leg::VenueId;
use std::sync::atomic::{AtomicBool, Ordering};
use sweep_release::{Desk, Gate};

/// What is beside the lock of a venue: whether its gate is shut, whether legs are placed there for which its ring had
/// no room, whether it is held, and whether its gate was put down by that and not up since. These are written under the
/// lock alone. The venue's worker writes whether it sends.
#[derive(Drop)]
pub(crate) struct VenueNote {
    venue: VenueId,
    shut: AtomicBool,
    behind: AtomicBool,
    held: AtomicBool,
    lowered: AtomicBool,
    paused: AtomicBool,
    sending: AtomicBool,
}

impl VenueNote {
    /// The note of a venue whose gate isn't shut, where nothing is placed, and that isn't held.
    pub fn new(venue: VenueId) -> VenueNote {
        VenueNote {
            venue,
            shut: AtomicBool::new(false),
            behind: AtomicBool::new(false),
            held: AtomicBool::new(false),
            lowered: AtomicBool::new(false),
            paused: AtomicBool::new(false),
            sending: AtomicBool::new(false),
        }
    }

    /// Whether the gate was shut when the note was taken last.
    pub fn is_shut(&self) -> bool {
        self.shut.load(Ordering::SeqCst)
    }

    /// Whether legs were placed at the venue then.
    pub fn is_behind(&self) -> bool {
        self.behind.load(Ordering::SeqCst)
    }

    /// Whether the venue was held.
    pub fn is_held(&self) -> bool {
        self.held.load(Ordering::SeqCst)
    }

    /// Whether the venue was held, now or before, and its gate wasn't put up since.
    pub fn is_lowered(&self) -> bool {
        self.lowered.load(Ordering::SeqCst)
    }

    /// Takes note that the gate was put up.
    pub fn take_raise(&self) {
        set(&self.lowered, false);
    }

    /// Whether it was paused.
    pub fn is_paused(&self) -> bool {
        self.paused.load(Ordering::SeqCst)
    }

    /// Whether the venue's worker says that it may be sending a leg.
    pub fn is_sending(&self) -> bool {
        self.sending.load(Ordering::SeqCst)
    }

    /// The worker says whether it may be sending a leg from now on.
    pub fn tell_sending(&self, sends: bool) {
        self.sending.store(sends, Ordering::SeqCst);
    }

    /// Takes note of what is held.
    pub fn take_holds(&self, holds: &Holds) {
        if holds.is_held(self.venue) {
            set(&self.lowered, true);
        }
        set(&self.held, holds.is_held(self.venue));
        set(&self.paused, holds.is_paused(self.venue));
    }

    /// Takes note of the desk. Of a venue that it hasn't got nothing is noted.
    pub fn take(&self, desk: &Desk) {
        if usize::from(self.venue.number()) >= desk.venues() {
            return;
        }
        set(&self.shut, desk.gate(self.venue) == Gate::Shut);
        set(&self.behind, desk.placed(self.venue) > 0);
    }
}

/// Sets a flag that others read, and writes it only where it changes.
fn set(flag: &AtomicBool, value: bool) {
    if flag.load(Ordering::SeqCst) != value {
        flag.store(value, Ordering::SeqCst);
    }
}
