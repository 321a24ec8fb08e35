//! A link beside which a caller makes its calls.

ghost use Rattle.std.specs.Prelude.{◌≡◌};

use crate::course::{Beside, Course, Shuts};
use day_trial::Caller;
use exec_collector::Accounts;
use leg::VenueId;
use link::{Got, Link, LinkFault};
use release_lock::Run;
use std::sync::Wait;
use std::time::Duration;

/// A link to a venue's exchange, and a caller that makes its calls while the link is read or written to. So one thread
/// plays a day in which sweeps are released while the worker takes its turns.
#[derive(Drop)]
pub struct CalledLink<'a, 'c, R: Wait, K: Link, L: Run, M: Accounts> {
    link: K,
    caller: Caller<'a, R, L, M>,
    venue: VenueId,
    course: Course<'c>,
    // How many of the sweeps were placed.
    placed: usize,
    // How many calls of the link pass before the next one of the caller.
    waits: u64,
    // How many calls of the link were made that may fail.
    calls: u64,
}

impl<'a, 'c, R: Wait, K: Link, L: Run, M: Accounts> CalledLink<'a, 'c, R, K, L, M> {
    /// A link whose caller hasn't begun the calls of the course.
    pub fn new(
        link: K,
        caller: Caller<'a, R, L, M>,
        venue: VenueId,
        course: Course<'c>,
    ) -> CalledLink<'a, 'c, R, K, L, M> {
        CalledLink {
            link,
            caller,
            venue,
            course,
            placed: 0,
            waits: 0,
            calls: 0,
        }
    }

    /// The link and the caller, at the end, and how many calls of the link were made that may fail.
    pub fn into_parts(self) -> (K, Caller<'a, R, L, M>, u64) {
        let CalledLink {
            link,
            caller,
            venue: _,
            course: _,
            placed: _,
            waits: _,
            calls,
        } = self;
        (link, caller, calls)
    }

    /// Counts a call of the link.
    fn count(&mut self)
        ensures { self.new.link ≡ self.old.link }
    {
        self.calls = self.calls.saturating_add(1);
    }

    /// The caller makes its next call, if it makes its calls beside such ones of the link.
    fn call_beside(&mut self, now: Beside)
        ensures { self.new.link ≡ self.old.link }
    {
        if self.course.beside == now {
            self.call();
        }
    }

    /// The caller makes its next call, if one is due. A sweep that is refused is left for the next time.
    fn call(&mut self)
        ensures { self.new.link ≡ self.old.link }
    {
        if self.waits > 0 {
            self.waits -= 1;
            return;
        }
        match self.course.sweeps.get(self.placed) {
            Some(orders) => {
                if self.caller.release(orders) {
                    self.placed += 1;
                    self.waits = self.course.pause;
                    if self.placed == self.course.sweeps.len() {
                        self.shut_if(Shuts::WithLastSweep);
                    }
                }
            }
            None => self.shut_if(Shuts::AfterSweeps),
        }
    }

    /// The caller shuts the gate, if this is when it does.
    fn shut_if(&mut self, now: Shuts)
        ensures { self.new.link ≡ self.old.link }
    {
        if self.course.shuts == now {
            self.caller.shut(self.venue);
        }
    }
}

impl<'a, 'c, R: Wait, K: Link, L: Run, M: Accounts> Link for CalledLink<'a, 'c, R, K, L, M> {
    ghost wire = { λ called. K.wire called.link };

    ghost fault_count = { λ called. K.fault_count called.link };

    fn dial(&mut self) -> Result<(), LinkFault> {
        self.count();
        self.link.dial()
    }

    fn read(&mut self, buf: &mut [u8]) -> Result<Got, LinkFault> {
        self.count();
        self.call_beside(Beside::Reads);
        self.link.read(buf)
    }

    fn heard(&mut self, left: usize) {
        self.link.heard(left)
    }

    fn came_up(&mut self) {
        self.link.came_up()
    }

    fn write(&mut self, bytes: &[u8]) -> Result<usize, LinkFault> {
        self.count();
        self.call_beside(Beside::Writes);
        self.link.write(bytes)
    }

    fn rest(&mut self, most: Duration) {
        self.link.rest(most)
    }

    fn shut(&mut self) -> Result<(), LinkFault> {
        self.count();
        self.shut_if(Shuts::AfterConnection);
        self.link.shut()
    }

    fn faults(&self) -> u64 {
        self.link.faults()
    }
}
