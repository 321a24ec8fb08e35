//! The sweeps of a desk, placed again from the lines of its journal.

ghost use Rattle.std.specs.Prelude.{◌≡◌, ◌≤◌, ◌+◌, ◌++◌, ◌∷◌, [], length, map, IfOk, IfErr, MatchResult, OnOk};
ghost use Rattle.share_ledger.specs.Entries.{sweep_shares};
ghost use Rattle.day_restart.specs.Placing.{AddsPlaced, AllTakeMore, ArePlaced, IsDeskFault, IsLineFault, IsPlacing};
ghost use Rattle.day_restart.specs.Placing.{PlacesLine, asks_for, parts_of};

use desk_words::VenueName;
use exec_collector::{Accounts, Collector};
use journal_folder::RestartFault;
use journal_words::{DeskDeed, read_desk};
use leg::{Legs, Sweep};
use release_lock::{Asked, CallerSeat, Declined, LockedDesk, Run};
use session_worker::Start;
use std::alloc::{AllocError, Global};
use std::sync::Wait;
use sweep_refs::{Placement, Submission, SweepRef};
use sweep_release::{Receipt, ReleaseFault};
use sweep_text::{Command, LineFault, read_line};

/// A sweep that was placed under a reference.
#[derive(Drop)]
pub struct Placed {
    pub reference: SweepRef,
    pub placement: Placement,
}

/// What was placed again.
#[derive(Drop)]
pub struct PlacedAgain {
    /// The sweeps under references, in order.
    pub refs: Vec<Placed>,
    pub legs: u64,
    pub shares: u64,
}

/// The sweep that a caller's line asks for, which is line `line` of the journal.
fn read_sweep(
    alloc: Global,
    names: &[VenueName],
    asked: &[u8],
    line: usize,
) -> Result<Submission, RestartFault>
    requires { length names.now ≤ 16 }
    ensures { MatchResult result (asks_for names.now asked.now) (IsLineFault line) }
{
    match read_line(alloc, names, asked) {
        Ok(Command::Sweep(submission)) => Ok(submission),
        Ok(_) => Err(RestartFault::DeskLine(line)),
        Err(LineFault::OutOfMemory) => Err(RestartFault::OutOfMemory),
        Err(_) => Err(RestartFault::DeskLine(line)),
    }
}

/// The number and the sweep that line `line` of the desk's journal says was placed.
fn read_placing(
    alloc: Global,
    names: &[VenueName],
    text: &[u8],
    line: usize,
) -> Result<(u64, Submission), RestartFault>
    requires { length names.now ≤ 16 }
    ensures { MatchResult result (λ placing. IsPlacing names.now text.now placing.0 placing.1) (IsLineFault line) }
{
    let said = match read_desk(text) {
        Ok(said) => said,
        Err(_) => return Err(RestartFault::DeskLine(line)),
    };
    match said.deed {
        DeskDeed::Place(number, asked) => match read_sweep(alloc, names, asked, line) {
            Ok(submission) => Ok((number, submission)),
            Err(fault) => Err(fault),
        },
        _ => Err(RestartFault::DeskLine(line)),
    }
}

/// Places a sweep, which has to get this number.
fn place_as<L: Run, M: Accounts>(
    rt: &impl Wait,
    desk: &mut LockedDesk<L>,
    collector: &Collector<M>,
    seat: &mut CallerSeat<L>,
    sweep: Sweep,
    number: u64,
    line: usize,
) -> Result<Receipt, RestartFault>
    requires tied { L.sweeps ≡ M.sweeps }
    ensures sweeps { OnOk result (desk.new.desk.sweeps ≡ desk.old.desk.sweeps ++ sweep.legs ∷ []) }
    ensures number { OnOk result (number ≡ length desk.old.desk.sweeps + 1) }
    ensures shares { IfOk result (λ receipt. receipt.shares ≡ sweep_shares sweep.legs) }
    ensures parts { seat.new.parts ≡ seat.old.parts }
    ensures fault { IfErr result (IsLineFault line) }
{
    match desk.release(rt, collector, sweep, seat, &Asked::nothing()) {
        Ok(receipt) if receipt.number == number => Ok(receipt),
        Ok(_) => Err(RestartFault::DeskLine(line)),
        Err(Declined::Fault(ReleaseFault::OutOfMemory)) => Err(RestartFault::OutOfMemory),
        Err(_) => Err(RestartFault::DeskLine(line)),
    }
}

impl PlacedAgain {
    /// Counts a sweep of so many legs and shares, which is kept if it was placed under a reference.
    fn add(
        &mut self,
        reference: Option<SweepRef>,
        number: u64,
        shares: u64,
        legs: Legs,
    ) -> Result<(), AllocError>
        ensures { OnOk result (AddsPlaced reference number shares legs (parts_of self.old) (parts_of self.new)) }
    {
        self.legs = self.legs.saturating_add(legs.len() as u64);
        self.shares = self.shares.saturating_add(shares);
        if let Some(reference) = reference {
            self.refs.push(Placed {
                reference,
                placement: Placement {
                    number,
                    shares,
                    legs,
                },
            })?;
        }
        Ok(())
    }
}

/// Places again what line `line` of the desk's journal says was placed.
fn place_line<L: Run, M: Accounts>(
    rt: &impl Wait,
    alloc: Global,
    names: &[VenueName],
    text: &[u8],
    line: usize,
    desk: &mut LockedDesk<L>,
    collector: &Collector<M>,
    seat: &mut CallerSeat<L>,
    again: &mut PlacedAgain,
) -> Result<(), RestartFault>
    requires tied { L.sweeps ≡ M.sweeps }
    requires names { length names.now ≤ 16 }
    ensures placed { OnOk result (PlacesLine names.now text.now desk.old.desk (parts_of again.old) desk.new.desk
        (parts_of again.new)) }
    ensures seat { seat.new.parts ≡ seat.old.parts }
    ensures fault { IfErr result (IsLineFault line) }
{
    let (number, submission) = read_placing(alloc, names, text, line)?;
    let (_, copy) = read_placing(alloc, names, text, line)?;
    let Submission { reference, sweep } = submission;
    let receipt = place_as(rt, desk, collector, seat, sweep, number, line)?;
    again.add(reference, number, receipt.shares, copy.sweep.legs)?;
    Ok(())
}

/// Each start takes from its ring until it took as many legs in all as are counted at its place, or the ring is empty.
fn take_each<L: Run, M: Accounts>(
    rt: &impl Wait,
    starts: &mut [Start<L, M>],
    counts: &[u64],
) -> Result<(), AllocError>
    requires { length counts.now ≡ length starts.old }
    ensures { OnOk result (AllTakeMore starts.old starts.new) }
{
    for (place, start) in starts.iter_mut().enumerate() {
        start.take_to(rt, counts[place])?;
    }
    Ok(())
}

/// Places again what the lines of a desk's journal say was placed, in order and under the same numbers. The starts take
/// from their rings as many legs as their journals tell of, by `counts`.
pub(crate) fn place_again<L: Run, M: Accounts>(
    rt: &impl Wait,
    alloc: Global,
    names: &[VenueName],
    lines: &[Vec<u8>],
    desk: &mut LockedDesk<L>,
    collector: &Collector<M>,
    seat: &mut CallerSeat<L>,
    starts: &mut [Start<L, M>],
    counts: &[u64],
) -> Result<PlacedAgain, RestartFault>
    requires tied { L.sweeps ≡ M.sweeps }
    requires names { length names.now ≤ 16 }
    requires new { desk.old.desk.sweeps ≡ [] }
    requires counts { length counts.now ≡ length starts.old }
    ensures placed { IfOk result (λ again. ArePlaced names.now (map (λ l. l.items) lines.now) desk.new.desk
        (parts_of again)) }
    ensures starts { OnOk result (AllTakeMore starts.old starts.new) }
    ensures seat { seat.new.parts ≡ seat.old.parts }
    ensures fault { IfErr result (IsDeskFault (length lines.now)) }
{
    let mut again = PlacedAgain {
        refs: Vec::new(alloc),
        legs: 0,
        shares: 0,
    };
    for (place, text) in lines.iter().enumerate() {
        let line = place + 1;
        place_line(
            rt,
            alloc,
            names,
            text.as_slice(),
            line,
            desk,
            collector,
            seat,
            &mut again,
        )?;
        take_each(rt, starts, counts)?;
    }
    Ok(again)
}
