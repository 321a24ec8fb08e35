//! Two workers in threads, each of whose links writes nothing until the other one's writes too.

ghost use Rattle.std.specs.Prelude.{◌≡◌, map, None};

use day_trial::{DayFault, FENCE, LOGON, Said, Script, worker_of};
use exec_collector::Accounts;
use link::{Got, Link, LinkFault};
use release_lock::Run;
use session_worker::{EndReason, Pace, run_all};
use std::alloc::Global;
use std::fmt::Write;
use std::marker::Brand;
use std::sync::Wait;
use std::sync::atomic::{AtomicBool, Ordering};
use std::thread;
use std::thread::Threads;
use std::time::{Clock, Duration};
use trial::{Floor, MAX_NUMBER, Site, TrialFault};

/// The exchange logs out first.
const LOGOUT: Said = ("5", "49=B|34=3|");

/// What each exchange says, read by read.
const READS: &[&[Said]] = &[&[LOGON], &[FENCE], &[LOGOUT]];

const PACE: Pace = Pace::Turns {
    quiet_turns: 5,
    silent_turns: 20,
};

/// How many turns a worker takes at most.
const MOST_TURNS: u64 = 10;

/// A link whose first write waits ten seconds at most for the other link's, and which answers faults where that doesn't
/// come.
#[derive(Drop)]
struct Meeting<'a, T: Clock> {
    script: Script,
    time: &'a T,
    mine: &'a AtomicBool,
    other: &'a AtomicBool,
    met: bool,
}

impl<'a, T: Clock> Meeting<'a, T> {
    /// Whether the other link has written, or does in ten seconds.
    fn meets(&self) -> bool {
        self.mine.store(true, Ordering::SeqCst);
        for _try in 0..10_000 {
            if self.other.load(Ordering::SeqCst) {
                return true;
            }
            thread::sleep(self.time, Duration::from_millis(1));
        }
        false
    }
}

impl<'a, T: Clock> Link for Meeting<'a, T> {
    ghost wire = { λ link. None };

    ghost fault_count = { λ link. link.script.faults };

    fn dial(&mut self) -> Result<(), LinkFault> {
        self.script.dial()
    }

    fn read(&mut self, buf: &mut [u8]) -> Result<Got, LinkFault> {
        self.script.read(buf)
    }

    fn heard(&mut self, left: usize) {
        self.script.heard(left)
    }

    fn came_up(&mut self) {
        self.script.came_up()
    }

    fn write(&mut self, bytes: &[u8]) -> Result<usize, LinkFault> {
        self.met = self.met || self.meets();
        if self.met {
            self.script.write(bytes)
        } else {
            Err(LinkFault::counted(&mut self.script.faults))
        }
    }

    fn rest(&mut self, most: Duration) {
        self.script.rest(most)
    }

    fn shut(&mut self) -> Result<(), LinkFault> {
        self.script.shut()
    }

    fn faults(&self) -> u64 {
        self.script.faults()
    }
}

/// Two workers in threads, and why they ended.
fn run_both<L: Run + Send + Sync, M: Accounts + Send + Sync, R: Threads + Wait + Clock + Sync>(
    rt: &R,
    alloc: Global,
    floor: Floor<L, M>,
) -> Result<(EndReason, EndReason), DayFault> {
    let Floor {
        lock,
        collector,
        mut posts,
        ..
    } = floor;
    let (one, other) = (AtomicBool::new(false), AtomicBool::new(false));
    let mut workers = Vec::new(alloc);
    for (mine, other) in [(&one, &other), (&other, &one)] {
        let link = Meeting {
            script: Script::new(alloc, READS)?,
            time: rt,
            mine,
            other,
            met: false,
        };
        let post = posts.pop().ok_or(TrialFault::Missing)?;
        workers.push(worker_of(alloc, link, MAX_NUMBER, PACE, post)?)?;
    }
    let ends = run_all(rt, alloc, &lock, &collector, workers, MOST_TURNS)?;
    match ends.as_slice() {
        [first, second] => Ok((first.reason, second.reason)),
        _ => Err(DayFault::Trial(TrialFault::Missing)),
    }
}

/// Two workers at a floor of this site.
fn both_at<L: Run + Send + Sync, M: Accounts + Send + Sync, R: Threads + Wait + Clock + Sync>(
    rt: &R,
    alloc: Global,
    site: Site,
) -> Result<(EndReason, EndReason), DayFault>
    requires lock { (site.callers.name ≡ L.name) × (L.parts ≡ 1024)
        × (L.queues ≡ map (λ ends. ends.0.table) site.rings.items) × (site.callers.slips ≡ L.slips) }
    requires book { (site.workers.name ≡ M.name) × (M.parts ≡ site.venues) × (site.workers.lists ≡ M.lists) }
    requires sweeps { (site.workers.sweeps ≡ M.sweeps) × (L.sweeps ≡ M.sweeps) }
{
    run_both(rt, alloc, Floor::<L, M>::open(alloc, site)?)
}

/// Two workers that meet.
fn meet<R: Threads + Wait + Clock + Sync>(
    rt: &R,
    alloc: Global,
) -> Result<(EndReason, EndReason), DayFault> {
    both_at::<Brand, Brand, R>(rt, alloc, Site::new(alloc, 2)?)
}

/// Writes why two workers ended that met.
pub fn tell_meeting<R: Threads + Wait + Clock + Sync>(
    rt: &R,
    alloc: Global,
    text: &mut String,
) -> Result<(), DayFault> {
    let (first, second) = meet(rt, alloc)?;
    writeln!(text, "two venues at once: {first:?}, {second:?}")?;
    Ok(())
}
