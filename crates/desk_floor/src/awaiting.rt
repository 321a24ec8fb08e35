//! A sweep waits until its venues have room.

use crate::floor::Floor;
use exec_collector::Accounts;
use kept_link::Telling;
use leg::Routed;
use release_lock::Run;
use std::io::Write;
use std::sync::Wait;
use std::thread;
use std::time::{Clock, Duration};

/// How many microseconds pass between two looks whether a venue has room.
const LOOK_MICROS: u64 = 200;

impl<L: Run, M: Accounts, W: Write + Drop, J: Telling> Floor<L, M, W, J> {
    /// Waits until no leg is placed for which the ring of its venue had no room, at any venue of these legs; or until
    /// the day is closing. So their sweep finds room, unless another caller takes it meanwhile.
    pub fn await_room<R: Wait + Clock>(&self, rt: &R, legs: &[Routed]) {
        for _ in rt.forever() {
            if self.signals.is_closing() || !self.is_behind(legs) {
                return;
            }
            thread::sleep(rt, Duration::from_micros(LOOK_MICROS));
        }
    }

    /// Whether legs are placed at a venue of these for which its ring had no room.
    fn is_behind(&self, legs: &[Routed]) -> bool {
        legs.iter().any(|leg| self.lock.is_behind(leg.venue))
    }
}
