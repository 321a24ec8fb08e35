//! What was paid for the sweeps of a day.

ghost use Rattle.std.specs.Prelude.{◌≡◌, ◌≤◌, map, option_map, IfOk, IfSome};
ghost use Rattle.exec_collector.specs.Resolved.{Replays};
ghost use Rattle.day_sweeps.specs.Paid.{IsPaid, ShowsPaid, leg_paid_beside, paid_beside, paid_in, parts_of};
ghost use Rattle.day_sweeps.specs.Sweeps.{AddsUp, sweep_in, sweeps_in};

use crate::sweeps::{booked_sweeps, sum_of};
use desk_news::{Paid, PaidSweep, SweepParts};
use exec_collector::{Accounts, Beside, Collector, DayBook, Unbooked};
use leg::LegId;
use share_ledger::Book;
use std::alloc::{AllocError, Global};
use std::sync::Wait;

/// A sweep with what was paid for it.
fn paid_of(beside: &Beside, parts: SweepParts) -> PaidSweep
    ensures { result ≡ paid_beside beside.now parts }
{
    PaidSweep {
        parts,
        paid: Paid {
            worth: beside.sweep_worth(parts.sweep),
            filled: parts.totals.filled,
            disputed: beside.sweep_disputed(parts.sweep),
        },
    }
}

/// What was paid for so many filled shares of a leg.
pub fn leg_paid(beside: &Beside, id: LegId, filled: u64) -> Paid
    ensures { result ≡ leg_paid_beside beside.now id filled }
{
    Paid {
        worth: beside.worth(id),
        filled,
        disputed: beside.disputed(id),
    }
}

/// The sweep of this number, from 1, with what was paid for it, if it was opened.
#[tactic(auto, using(crate::proofs::Booked::few_numbered))]
fn paid_sweep(book: &Book, beside: &Beside, number: u64) -> Option<PaidSweep>
    requires some { 1 ≤ number }
    requires replays { Replays book.now }
    ensures value { result ≡ option_map (paid_beside beside.now) (sweep_in book.now number) }
    ensures adds_up { IfSome result (λ sweep. AddsUp sweep.parts) }
{
    let totals = book.totals(number)?;
    let parts = SweepParts {
        sweep: number,
        shares: sum_of(&totals),
        totals,
    };
    Some(paid_of(beside, parts))
}

/// The sweep of this number, from 1, with what was paid for it, as the book has both now, if it was opened. It may wait
/// for the lock.
pub fn paid_sweep_now<M: Accounts>(
    rt: &impl Wait,
    collector: &Collector<M>,
    number: u64,
) -> Option<PaidSweep>
    requires { 1 ≤ number }
    ensures booked { IsPaid number result }
    ensures adds_up { IfSome result (λ sweep. AddsUp sweep.parts) }
{
    collector.read_day(
        rt,
        |book: &Book, _unbooked: &[Unbooked], beside: &Beside| -> Option<PaidSweep>
            requires some { 1 ≤ number }
            requires replays { Replays book.now }
            ensures shows { ShowsPaid number book.now beside.now result }
            ensures adds_up { IfSome result (λ sweep. AddsUp sweep.parts) }
        { paid_sweep(book, beside, number) },
    )
}

/// All sweeps of a day, in the order of their numbers, with what was paid for each. The only refusal is out of memory.
pub fn paid_sweeps<M: Accounts>(
    alloc: Global,
    day: &DayBook<M>,
) -> Result<Vec<PaidSweep>, AllocError>
    ensures parts { IfOk result (λ sweeps. parts_of sweeps.items ≡ sweeps_in day.now.counted.book) }
    ensures paid { IfOk result (λ sweeps. sweeps.items
        ≡ map (paid_in day.now.counted.book day.now.counted.unbooked) (sweeps_in day.now.counted.book)) }
{
    let sweeps = booked_sweeps(alloc, day.counted().book())?;
    let mut paid = Vec::new(alloc);
    for parts in sweeps {
        paid.push(PaidSweep {
            parts,
            paid: Paid {
                worth: day.sweep_worth(parts.sweep),
                filled: parts.totals.filled,
                disputed: day.sweep_disputed(parts.sweep),
            },
        })?;
    }
    Ok(paid)
}
