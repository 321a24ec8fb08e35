//! A day, made anew from its journals.

ghost use Rattle.std.specs.Prelude.{◌≡◌, ◌<◌, ◌≤◌, ◌+◌, [], Some, length, map, IfErr, IfOk, MatchOption, OnOk};
ghost use Rattle.std.specs.List.{All};
ghost use Rattle.release_lock.specs.Noted.{IsNoted};
ghost use Rattle.day_restart.specs.Redoing.{AllDone, AllEnd, AllRedo, HasNext, IsRefusal, IsVenueFault, IsVenuesFault};
ghost use Rattle.day_restart.specs.Redoing.{RedoesAt, is_of_leg, leg_count};
ghost use Rattle.day_restart.specs.Restored.{AllGoOn, IsNew, PlacesAgain};
ghost use Rattle.day_restart.specs.Told.{IsToldOf, TellsDay, venue_rows};

use crate::desk_past::{Placed, PlacedAgain, place_again};
use crate::told::{Restored, VenueRestored};
use desk_words::VenueName;
use dialect::Dialect;
use exec_collector::{Accounts, Collector};
use journal_folder::RestartFault;
use release_lock::{CallerSeat, LockedDesk, Run};
use session_worker::{RedoFault, Start};
use std::alloc::{AllocError, Global};
use std::sync::Wait;

/// How many bytes are before the words of a line, a time and a space.
const HEAD_LEN: usize = 22;

/// What a venue's worker did in the lives before: its name, its dialect, and its journal's lines.
#[derive(Drop)]
pub struct VenuePast<'p, D: Dialect + Drop> {
    pub name: &'p VenueName,
    pub dialect: D,
    pub lines: &'p [Vec<u8>],
}

/// What is made anew of a day.
#[derive(Drop)]
pub struct RestoredDay<L: Run, M: Accounts> {
    /// What each venue's worker begins with, in order.
    pub starts: Vec<Start<L, M>>,
    /// The sweeps that were placed under references.
    pub refs: Vec<Placed>,
    /// The shares of all sweeps.
    pub shares: u64,
    pub told: Restored,
}

/// Whether a line is that of a leg which was taken.
fn is_of_leg(line: &[u8]) -> bool
    ensures { result ≡ is_of_leg line.now }
{
    match line.get(HEAD_LEN..) {
        Some(words) => {
            words.starts_with(b"send ")
                || words.starts_with(b"drop ")
                || words.starts_with(b"fail ")
        }
        None => false,
    }
}

/// How many of these lines are.
fn leg_count(lines: &[Vec<u8>]) -> u64
    ensures { result ≡ leg_count (map (λ l. l.items) lines.now) }
{
    lines
        .iter()
        .filter(|line| is_of_leg(line.as_slice()))
        .count() as u64
}

/// How many legs the lines of each venue say were taken.
fn counts_of<D: Dialect + Drop>(
    alloc: Global,
    pasts: &[VenuePast<'_, D>],
) -> Result<Vec<u64>, AllocError>
    ensures { IfOk result (λ counts. counts.items
        ≡ map (λ p. leg_count (map (λ l. l.items) p.lines.now)) pasts.now) }
{
    let mut counts = Vec::new(alloc);
    for past in pasts {
        counts.push(leg_count(past.lines))?;
    }
    Ok(counts)
}

/// Why line `line` of a venue's journal can't be done again.
fn line_fault(name: &VenueName, line: usize) -> RestartFault
    ensures { IsVenueFault name.now line result }
{
    match name.clone() {
        Ok(name) => RestartFault::VenueLine(name, line),
        Err(_) => RestartFault::OutOfMemory,
    }
}

/// The time of the line of a venue at a place; none where the line is too short for one.
fn time_at<'p, D: Dialect + Drop>(past: &VenuePast<'p, D>, at: usize) -> Option<&'p [u8]> {
    let line = past.lines.get(at)?;
    line.as_slice().get(..HEAD_LEN)
}

/// The venue whose next line is the earliest, of several the first one. A line without a time is the earliest of all.
/// That it is the earliest isn't said.
fn earliest<D: Dialect + Drop>(pasts: &[VenuePast<'_, D>], at: &[usize]) -> Option<usize>
    requires { length at.now ≡ length pasts.now }
    ensures { MatchOption result (AllDone (map (λ p. length p.lines.now) pasts.now) at.now)
        (HasNext (map (λ p. length p.lines.now) pasts.now) at.now) }
{
    let mut found = None;
    for (place, past) in pasts.iter().enumerate() {
        if at[place] >= past.lines.len() {
            continue;
        }
        found = match found {
            Some(best) if time_at(&pasts[best], at[best]) <= time_at(past, at[place]) => Some(best),
            _ => Some(place),
        };
    }
    found
}

/// Does again what the line of a venue at a place says, and gives the place behind it.
fn redo_at<D: Dialect + Drop, L: Run, M: Accounts>(
    rt: &impl Wait,
    alloc: Global,
    past: &VenuePast<'_, D>,
    place: usize,
    collector: &Collector<M>,
    start: &mut Start<L, M>,
) -> Result<usize, RestartFault>
    requires { place < length past.now.lines.now }
    ensures next { IfOk result (λ next. next ≡ place + 1) }
    ensures redoes { OnOk result (RedoesAt (D.wording past.now.dialect).decoding start.old
        (map (λ l. l.items) past.now.lines.now) place start.new) }
    ensures fault { IfErr result (IsVenueFault past.now.name.now (place + 1)) }
{
    let line = &past.lines[place];
    match start.redo(rt, alloc, &past.dialect, collector, line.as_slice()) {
        Ok(()) => Ok(place + 1),
        Err(RedoFault::OutOfMemory) => Err(RestartFault::OutOfMemory),
        Err(_) => Err(line_fault(past.name, place + 1)),
    }
}

/// Does again what the lines of the venues say, each venue's in order, and those of several by their times.
fn redo_all<D: Dialect + Drop, L: Run, M: Accounts>(
    rt: &impl Wait,
    alloc: Global,
    pasts: &[VenuePast<'_, D>],
    collector: &Collector<M>,
    starts: &mut [Start<L, M>],
) -> Result<(), RestartFault>
    requires { length starts.old ≡ length pasts.now }
    ensures redo { OnOk result (AllRedo
        (map (λ p. ((D.wording p.dialect).decoding, map (λ l. l.items) p.lines.now)) pasts.now)
        starts.old starts.new) }
    ensures fault { IfErr result (IsVenuesFault (map (λ p. (p.name.now, length p.lines.now)) pasts.now)) }
{
    let mut at = vec![in alloc; 0usize; pasts.len()]?;
    while let Some(place) = earliest(pasts, at.as_slice()) {
        let done = at[place];
        at[place] = redo_at(
            rt,
            alloc,
            &pasts[place],
            done,
            collector,
            &mut starts[place],
        )?;
    }
    Ok(())
}

/// Each venue's lines are at their end, and its connection is gone.
fn end_each<D: Dialect + Drop, L: Run, M: Accounts>(
    pasts: &[VenuePast<'_, D>],
    starts: &mut [Start<L, M>],
) -> Result<(), RestartFault>
    requires { length starts.old ≡ length pasts.now }
    ensures ended { OnOk result (AllEnd starts.old starts.new) }
    ensures fault { IfErr result (IsVenuesFault (map (λ p. (p.name.now, length p.lines.now)) pasts.now)) }
{
    for (place, start) in starts.iter_mut().enumerate() {
        if !start.end() {
            let past = &pasts[place];
            return Err(line_fault(past.name, past.lines.len()));
        }
    }
    Ok(())
}

/// How the venues stand.
fn venues_told<D: Dialect + Drop, L: Run, M: Accounts>(
    alloc: Global,
    pasts: &[VenuePast<'_, D>],
    starts: &[Start<L, M>],
) -> Result<Vec<VenueRestored>, AllocError>
    requires { length starts.now ≡ length pasts.now }
    ensures { IfOk result (λ venues. venues.items
        ≡ venue_rows (map (λ p. p.name.now) pasts.now) starts.now) }
{
    let mut venues = Vec::new(alloc);
    for (place, start) in starts.iter().enumerate() {
        venues.push(VenueRestored {
            venue: pasts[place].name.clone()?,
            next_out: start.session().next_out(),
            next_in: start.session().next_in(),
            doubt: start.doubts(),
        })?;
    }
    Ok(venues)
}

/// What is told of a day that was made anew, of so many sweeps with so many legs.
fn told_of<D: Dialect + Drop, L: Run, M: Accounts>(
    alloc: Global,
    pasts: &[VenuePast<'_, D>],
    starts: &[Start<L, M>],
    sweeps: u64,
    legs: u64,
) -> Result<Restored, AllocError>
    requires { length starts.now ≡ length pasts.now }
    ensures { IfOk result (IsToldOf (map (λ p. p.name.now) pasts.now) starts.now sweeps legs) }
{
    let mut taken = 0u64;
    let mut booked = 0u64;
    for start in starts {
        taken = taken.saturating_add(start.taken());
        booked = booked.saturating_add(start.booked());
    }
    Ok(Restored {
        sweeps,
        legs,
        executions: booked,
        venues: venues_told(alloc, pasts, starts)?,
        withdrawn: legs.saturating_sub(taken),
    })
}

/// Puts the venues' gates up, so that their sweeps can be placed again, and says whether all are.
fn raise_all<L: Run, M: Accounts>(desk: &mut LockedDesk<L>, starts: &[Start<L, M>]) -> bool
    ensures { desk.new.desk.sweeps ≡ desk.old.desk.sweeps }
{
    for start in starts {
        if !start.raise(desk) {
            return false;
        }
    }
    true
}

/// Puts them down again: each worker puts its own up.
fn lower_all<L: Run, M: Accounts>(desk: &mut LockedDesk<L>, starts: &[Start<L, M>])
    ensures { desk.new.desk.sweeps ≡ desk.old.desk.sweeps }
{
    for start in starts {
        start.lower(desk);
    }
}

/// Makes a day anew: the sweeps of the desk's lines are placed again in order, at a desk and in a book on which nothing
/// was done; then each venue's lines are done again, and its connection is gone. Legs that were placed and that no line
/// says were taken stay where they are: their workers drop them before they dial. At `Err` all of it is of no use.
pub fn restore_day<D: Dialect + Drop, L: Run, M: Accounts>(
    rt: &impl Wait,
    alloc: Global,
    names: &[VenueName],
    lines: &[Vec<u8>],
    pasts: &[VenuePast<'_, D>],
    desk: &mut LockedDesk<L>,
    collector: &Collector<M>,
    seat: &mut CallerSeat<L>,
    starts: Vec<Start<L, M>>,
) -> Result<RestoredDay<L, M>, RestartFault>
    requires tied { L.sweeps ≡ M.sweeps }
    requires names { length names.now ≤ 16 }
    requires new { desk.old.desk.sweeps ≡ [] }
    requires starts { All IsNew starts.items }
    requires each { length starts.items ≡ length pasts.now }
    ensures desk { OnOk result (PlacesAgain names.now (map (λ l. l.items) lines.now) desk.new.desk) }
    ensures noted { OnOk result (IsNoted desk.new
        (Some (record { kept = map (λ l. l.items) lines.now; unkept = [] }))) }
    ensures starts { IfOk result (λ day. AllGoOn
        (map (λ p. ((D.wording p.dialect).decoding, map (λ l. l.items) p.lines.now)) pasts.now)
        starts.items day.starts.items) }
    ensures told { IfOk result (λ day. TellsDay names.now (map (λ l. l.items) lines.now)
        (map (λ p. p.name.now) pasts.now) day.refs.items day.shares day.starts.items day.told) }
    ensures seat { seat.new.parts ≡ seat.old.parts }
    ensures fault { IfErr result (IsRefusal (length lines.now)
        (map (λ p. (p.name.now, length p.lines.now)) pasts.now)) }
{
    let mut starts = starts;
    let counts = counts_of(alloc, pasts)?;
    if !raise_all(desk, starts.as_slice()) {
        return Err(RestartFault::OutOfMemory);
    }
    let again = place_again(
        rt,
        alloc,
        names,
        lines,
        desk,
        collector,
        seat,
        starts.as_mut_slice(),
        counts.as_slice(),
    )?;
    lower_all(desk, starts.as_slice());
    redo_all(rt, alloc, pasts, collector, starts.as_mut_slice())?;
    end_each(pasts, starts.as_mut_slice())?;
    let sweeps = lines.len() as u64;
    let told = told_of(alloc, pasts, starts.as_slice(), sweeps, again.legs)?;
    Ok(RestoredDay {
        starts,
        refs: again.refs,
        shares: again.shares,
        told,
    })
}
