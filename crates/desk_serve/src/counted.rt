//! What was counted of each sweep.

ghost use Rattle.std.specs.Prelude.{◌≡◌, suc};
ghost use Rattle.desk_serve.specs.Sums.{AreParts, IsCounted, all_recounted, recounted};

use day_sweeps::sweep_now;
use exec_collector::{Accounts, Collector};
use leg::Totals;
use std::alloc::{AllocError, Global};
use std::marker::Model;
use std::sync::Wait;

/// Of no shares.
const NOTHING: Totals = Totals {
    filled: 0,
    busted: 0,
    cancelled: 0,
    withdrawn: 0,
    still_open: 0,
};

/// What was counted of each sweep, and the sums of that. Contracts see the sums.
#[derive(Drop)]
pub(crate) struct Counted {
    /// By the sweeps' numbers.
    of_sweeps: Vec<Totals>,
    sums: Totals,
}

impl Model for Counted {
    ghost use Rattle.leg.specs.declared.totals.Totals.{Totals};
    ghost use Rattle.desk_serve.specs.Sums.{IsSum};

    ghost Value = { Totals };

    ghost view = { λ counted. counted.sums };

    ghost invariant = { λ counted. IsSum counted.of_sweeps.items counted.sums };
}

/// A sum in which what was counted before is counted anew.
fn recounted(sum: u64, before: u64, now: u64) -> u64
    ensures { result ≡ recounted sum before now }
{
    sum.saturating_sub(before).saturating_add(now)
}

/// Sums in which what was counted before of a sweep is counted anew.
fn all_recounted(sums: &Totals, before: &Totals, now: &Totals) -> Totals
    ensures { result ≡ all_recounted sums.now before.now now.now }
{
    Totals {
        filled: recounted(sums.filled, before.filled, now.filled),
        busted: recounted(sums.busted, before.busted, now.busted),
        cancelled: recounted(sums.cancelled, before.cancelled, now.cancelled),
        withdrawn: recounted(sums.withdrawn, before.withdrawn, now.withdrawn),
        still_open: recounted(sums.still_open, before.still_open, now.still_open),
    }
}

impl Counted {
    /// Nothing, of no sweep.
    pub fn new(alloc: Global) -> Counted {
        Counted {
            of_sweeps: Vec::new(alloc),
            sums: NOTHING,
        }
    }

    /// The sums.
    pub fn sums(&self) -> Totals
        ensures { AreParts result }
    {
        self.sums
    }

    /// Counts the sweep of this number anew, if it was opened. It may wait for the book's lock.
    pub fn recount<M: Accounts>(
        &mut self,
        rt: &impl Wait,
        collector: &Collector<M>,
        number: u64,
    ) -> Result<(), AllocError> {
        let Some(place) = number.checked_sub(1) else {
            return Ok(());
        };
        let Some(sweep) = sweep_now(rt, collector, number) else {
            return Ok(());
        };
        if place as usize >= self.of_sweeps.len() {
            self.add()?;
        }
        self.count(place as usize, sweep.totals);
        Ok(())
    }

    /// One sweep more, of which nothing is counted.
    fn add(&mut self) -> Result<(), AllocError> {
        Ok(self.of_sweeps.push(NOTHING)?)
    }

    /// Counts the parts of the sweep at a place, if one stands there, in the place of what was counted of it.
    fn count(&mut self, place: usize, now: Totals)
        requires { IsCounted (suc place) now }
    {
        if place < self.of_sweeps.len() {
            let before = self.of_sweeps[place];
            self.sums = all_recounted(&self.sums, &before, &now);
            self.of_sweeps[place] = now;
        }
    }
}
