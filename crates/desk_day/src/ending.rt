//! The end of a day is kept in the desk's journal.

use clock::{Clock, UtcClock};
use journal_words::DeskDeed;
use kept_link::Telling;
use std::sync::Wait;
use std::time::Duration;
use std::{thread, time};

/// How often it is tried.
const TRIES: u64 = 50;

/// How many milliseconds pass between two tries.
const REST_MILLIS: u64 = 100;

/// Tells the desk's journal that the day ended in order, and keeps it. Where it can't be kept within some seconds a
/// later start goes on with the day, in which there is nothing left to do.
pub(crate) fn keep_end<J: Telling, R: Wait + time::Clock>(rt: &R, journal: J) {
    let mut journal = journal;
    let mut clock = UtcClock::new(rt);
    let stamp = clock.now();
    if journal.tell_desk(&stamp, &DeskDeed::End).is_err() {
        return;
    }
    for _ in 0..TRIES {
        if journal.keep().is_ok() {
            return;
        }
        thread::sleep(rt, Duration::from_millis(REST_MILLIS));
    }
}
