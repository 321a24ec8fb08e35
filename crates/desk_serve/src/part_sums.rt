//! What became of the shares of all sweeps.

ghost use Rattle.std.specs.Prelude.{IfOk};
ghost use Rattle.desk_serve.specs.Sums.{AreParts};

use crate::counted::Counted;
use desk_floor::Changes;
use exec_collector::{Accounts, Collector};
use leg::Totals;
use std::alloc::{AllocError, Global};
use std::sync::Wait;

/// What became of the shares of all sweeps, as far as the book was looked at. A look costs what changed since the one
/// before.
#[derive(Drop)]
pub(crate) struct PartSums {
    changes: Changes,
    counted: Counted,
}

impl PartSums {
    /// Of a book that wasn't looked at.
    pub fn new(alloc: Global) -> PartSums {
        PartSums {
            changes: Changes::new(alloc),
            counted: Counted::new(alloc),
        }
    }

    /// What became of the shares of all sweeps until now. It may wait for the book's lock. The only refusal is out of
    /// memory, after which it goes on where it was.
    pub fn now<M: Accounts>(
        &mut self,
        rt: &impl Wait,
        collector: &Collector<M>,
    ) -> Result<Totals, AllocError>
        ensures { IfOk result AreParts }
    {
        self.changes.look(rt, collector)?;
        let PartSums { changes, counted } = self;
        for number in changes.sweeps() {
            counted.recount(rt, collector, *number)?;
        }
        changes.told();
        Ok(counted.sums())
    }
}
