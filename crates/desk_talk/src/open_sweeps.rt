//! The sweeps of a day that have open shares.

use day_sweeps::sweep_now;
use desk_floor::Changes;
use exec_collector::{Accounts, Collector};
use std::alloc::{AllocError, Global};
use std::collections::BTreeSet;
use std::sync::Wait;

/// The sweeps that have open shares, as far as the book was looked at. A look costs what changed since the one before.
#[derive(Drop)]
pub struct OpenSweeps {
    changes: Changes,
    numbers: BTreeSet<u64>,
}

/// Whether the sweep of a number has open shares. It may wait for the book's lock.
fn is_open<M: Accounts>(rt: &impl Wait, collector: &Collector<M>, number: u64) -> bool {
    if number == 0 {
        return false;
    }
    match sweep_now(rt, collector, number) {
        Some(sweep) => sweep.totals.still_open > 0,
        None => false,
    }
}

impl OpenSweeps {
    /// Of a book that wasn't looked at.
    pub fn new(alloc: Global) -> OpenSweeps {
        OpenSweeps {
            changes: Changes::new(alloc),
            numbers: BTreeSet::new(alloc),
        }
    }

    /// Looks at a book: from then on these are the sweeps that have open shares now. It may wait for the book's lock.
    /// The only refusal is out of memory, after which it goes on where it was.
    pub fn look<M: Accounts>(
        &mut self,
        rt: &impl Wait,
        collector: &Collector<M>,
    ) -> Result<(), AllocError> {
        self.changes.look(rt, collector)?;
        let OpenSweeps { changes, numbers } = self;
        for number in changes.sweeps() {
            if is_open(rt, collector, *number) {
                if numbers.insert(*number).is_err() {
                    return Err(AllocError);
                }
            } else {
                numbers.remove(number);
            }
        }
        changes.told();
        Ok(())
    }

    /// Their numbers, from 1 and in order.
    pub fn numbers(&self) -> &BTreeSet<u64> {
        &self.numbers
    }
}
