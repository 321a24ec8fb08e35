//! A caller.

ghost use Rattle.std.specs.Prelude.{◌≡◌};

use exec_collector::{Accounts, Collector};
use leg::{Totals, VenueId};
use release_lock::{CallerSeat, ReleaseLock, Run};
use session_worker::shut_gate;
use std::alloc::Global;
use std::sync::Wait;
use sweep_release::Receipt;
use trial::{Order, sweep_of};

/// A caller: it releases sweeps, and keeps what it gets for them.
#[derive(Drop)]
pub struct Caller<'a, R: Wait, L: Run, M: Accounts> {
    rt: &'a R,
    alloc: Global,
    lock: &'a ReleaseLock<L>,
    collector: &'a Collector<M>,
    end: CallerEnd<L>,
    ghost tied: { L.sweeps ≡ M.sweeps },
}

/// What a caller gives back.
#[derive(Drop)]
pub struct CallerEnd<L: Run> {
    pub seat: CallerSeat<L>,
    /// What it got for the sweeps that it released.
    pub receipts: Vec<Receipt>,
    /// What had become of its sweep before the last one when it released that.
    pub before_last: Option<Totals>,
}

impl<'a, R: Wait, L: Run, M: Accounts> Caller<'a, R, L, M> {
    /// A caller that has made no call yet. It takes no memory.
    pub fn new(
        rt: &'a R,
        alloc: Global,
        lock: &'a ReleaseLock<L>,
        collector: &'a Collector<M>,
        seat: CallerSeat<L>,
    ) -> Caller<'a, R, L, M>
        requires tied { L.sweeps ≡ M.sweeps }
    {
        Caller {
            rt,
            alloc,
            lock,
            collector,
            end: CallerEnd {
                seat,
                receipts: Vec::new(alloc),
                before_last: None,
            },
        }
    }

    /// What became of the sweep that it released last.
    fn last_totals(&self) -> Option<Totals> {
        let receipt = self.end.receipts.last()?;
        self.collector.totals(self.rt, receipt.number)
    }

    /// Releases a sweep, and says whether it was placed.
    pub fn release(&mut self, orders: &[Order]) -> bool {
        let Ok(sweep) = sweep_of(self.alloc, orders) else {
            return false;
        };
        if self.end.receipts.reserve(1).is_err() {
            return false;
        }
        let before = self.last_totals();
        let answer = self
            .lock
            .release(self.rt, self.collector, sweep, &mut self.end.seat);
        match answer {
            Ok(receipt) => {
                self.end.receipts.push_reserved(receipt);
                self.end.before_last = before;
                true
            }
            Err(_) => false,
        }
    }

    /// Shuts the gate of a venue, for good.
    pub fn shut(&self, venue: VenueId) {
        shut_gate(self.rt, self.lock, venue);
    }

    /// What it gives back.
    pub fn into_end(self) -> CallerEnd<L> {
        let Caller {
            rt: _,
            alloc: _,
            lock: _,
            collector: _,
            end,
        } = self;
        end
    }
}
