//! What was told of sweeps.

ghost use Rattle.std.specs.Prelude.{◌<◌};

use desk_floor::TalkFault;
use desk_news::PaidSweep;
use std::alloc::Global;
use std::collections::BTreeMap;

/// What was told of sweeps.
#[derive(Drop)]
pub(crate) enum ToldSweeps {
    /// Of each of the day, by its number.
    All(Vec<PaidSweep>),
    /// Of those alone that had open shares then.
    Open(BTreeMap<u64, PaidSweep>),
}

/// Whether the sweep at a place stands otherwise than it was told to, and notes how it stands.
fn notes_at(told: &mut Vec<PaidSweep>, place: usize, sweep: PaidSweep) -> Result<bool, TalkFault> {
    match told.get_mut(place) {
        None => told.push(sweep)?,
        Some(before) if *before == sweep => return Ok(false),
        Some(before) => *before = sweep,
    }
    Ok(true)
}

/// Whether the sweep of a number stands otherwise than it was told to while it had open shares, and notes how it stands
/// if it has.
fn notes_open(
    told: &mut BTreeMap<u64, PaidSweep>,
    number: u64,
    sweep: PaidSweep,
) -> Result<bool, TalkFault> {
    if told.get(&number) == Some(&sweep) {
        return Ok(false);
    }
    if sweep.parts.totals.still_open == 0 {
        told.remove(&number);
    } else if told.insert(number, sweep).is_err() {
        return Err(TalkFault::OutOfMemory);
    }
    Ok(true)
}

impl ToldSweeps {
    /// None yet, of each of a day.
    pub fn of_all(alloc: Global) -> ToldSweeps {
        ToldSweeps::All(Vec::new(alloc))
    }

    /// None yet, of those that have open shares.
    pub fn of_open(alloc: Global) -> ToldSweeps {
        ToldSweeps::Open(BTreeMap::new(alloc))
    }

    /// Whether the sweep of a number, from 1, stands otherwise than it was told to, and notes how it stands. Of all
    /// sweeps they are noted in the order of their numbers.
    pub fn notes(&mut self, number: u64, sweep: PaidSweep) -> Result<bool, TalkFault>
        requires { 0 < number }
    {
        match self {
            ToldSweeps::All(told) => notes_at(told, (number - 1) as usize, sweep),
            ToldSweeps::Open(told) => notes_open(told, number, sweep),
        }
    }
}
