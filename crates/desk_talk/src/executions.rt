//! The executions that weren't told yet.

use day_executions::{Executions, LentNotes, named};
use desk_floor::{Floor, TalkFault};
use exec_collector::Accounts;
use kept_link::Telling;
use release_lock::Run;
use std::alloc::Global;
use std::io::Write;
use std::sync::Wait;

/// How many executions are lent at a time.
const MOST_LENT: u64 = 256;

/// Which executions of a day were told.
#[derive(Drop)]
pub(crate) struct ToldExecutions {
    alloc: Global,
    executions: Executions,
    /// Whether all are told, and not those alone that the book didn't take.
    are_all: bool,
    /// The number of the last one that needn't be told any more.
    last: u64,
}

impl ToldExecutions {
    /// None yet.
    pub fn new(alloc: Global, are_all: bool) -> ToldExecutions {
        ToldExecutions {
            alloc,
            executions: Executions::new(alloc),
            are_all,
            last: 0,
        }
    }

    /// Tells these, by the names of their venues.
    fn tell_lent<L: Run, M: Accounts, W: Write + Drop, J: Telling>(
        &mut self,
        rt: &impl Wait,
        floor: &Floor<L, M, W, J>,
        lent: LentNotes,
    ) -> Result<(), TalkFault> {
        for execution in named(self.alloc, floor.names.as_slice(), lent.notes)? {
            floor.voice.say(rt, &execution)?;
            self.last = execution.number;
        }
        Ok(())
    }

    /// Tells some of those that weren't told yet, in their order, and says whether there may be more. What wasn't told
    /// for lack of memory is told the next time.
    fn tell_some<L: Run, M: Accounts, W: Write + Drop, J: Telling>(
        &mut self,
        rt: &impl Wait,
        floor: &Floor<L, M, W, J>,
    ) -> Result<bool, TalkFault> {
        let collector = &floor.collector;
        let lent = self
            .executions
            .now(rt, self.alloc, collector, self.last, MOST_LENT)?;
        let count = lent.notes.len() as u64;
        let end = self.last.saturating_add(count);
        self.tell_lent(rt, floor, lent)?;
        self.last = end;
        Ok(count == MOST_LENT)
    }

    /// Tells those that weren't told yet and that the book didn't take, in their order.
    fn tell_untaken<L: Run, M: Accounts, W: Write + Drop, J: Telling>(
        &mut self,
        rt: &impl Wait,
        floor: &Floor<L, M, W, J>,
    ) -> Result<(), TalkFault> {
        let collector = &floor.collector;
        let lent = self
            .executions
            .untaken_now(rt, self.alloc, collector, self.last)?;
        let end = lent.last;
        self.tell_lent(rt, floor, lent)?;
        self.last = end;
        Ok(())
    }

    /// Tells those that weren't told yet and are to be, in their order.
    pub fn tell<L: Run, M: Accounts, W: Write + Drop, J: Telling>(
        &mut self,
        rt: &impl Wait,
        floor: &Floor<L, M, W, J>,
    ) -> Result<(), TalkFault> {
        if !self.are_all {
            return self.tell_untaken(rt, floor);
        }
        for _ in 0..u64::MAX {
            if !self.tell_some(rt, floor)? {
                break;
            }
        }
        Ok(())
    }
}
