//! The sweeps of a day, as the book has them.

ghost use Rattle.std.specs.Prelude.{◌≡◌, ◌≤◌, ◌+◌, IfOk, IfSome};
ghost use Rattle.std.specs.List.{All};
ghost use Rattle.exec_collector.specs.Resolved.{Replays};
ghost use Rattle.day_sweeps.specs.Sweeps.{sweeps_in, sum_of, AddsUp, IsBooked};

use desk_news::SweepParts;
use exec_collector::{Accounts, Collector};
use leg::Totals;
use share_ledger::Book;
use std::alloc::{AllocError, Global};
use std::sync::Wait;

/// The sweeps of a book, in the order of their numbers.
pub fn booked_sweeps(alloc: Global, book: &Book) -> Result<Vec<SweepParts>, AllocError>
    requires { Replays book.now }
    ensures value { IfOk result (λ sweeps. sweeps.items ≡ sweeps_in book.now) }
    ensures add_up { IfOk result (λ sweeps. All AddsUp sweeps.items) }
{
    let mut sweeps = Vec::new(alloc);
    for place in 0..book.history().len() {
        let number = place as u64 + 1;
        match book.totals(number) {
            Some(totals) => sweeps.push(SweepParts {
                sweep: number,
                shares: sum_of(&totals),
                totals,
            })?,
            None => return Ok(sweeps),
        }
    }
    Ok(sweeps)
}

/// The sweep of this number, from 1, as the book has it now, if it was opened. It may wait for the lock.
#[tactic(auto, using(crate::proofs::Booked::few_numbered))]
pub fn sweep_now<M: Accounts>(
    rt: &impl Wait,
    collector: &Collector<M>,
    number: u64,
) -> Option<SweepParts>
    requires { 1 ≤ number }
    ensures booked { IsBooked number result }
    ensures adds_up { IfSome result AddsUp }
{
    let totals = collector.totals(rt, number)?;
    Some(SweepParts {
        sweep: number,
        shares: sum_of(&totals),
        totals,
    })
}

/// The shares of all five parts.
pub(crate) fn sum_of(totals: &Totals) -> u64
    requires { sum_of totals.now ≤ 1000000000000000000 }
    ensures { result ≡ sum_of totals.now }
{
    totals.filled + totals.busted + totals.cancelled + totals.withdrawn + totals.still_open
}
