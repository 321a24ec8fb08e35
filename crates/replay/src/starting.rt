//! The start from what was kept.

ghost use Rattle.std.specs.Prelude.{◌≡◌, ◌<◌, ◌≤◌, ◌++◌, [], ◌∷◌, false, Some, length, IfOk, IfSome, OnOk};
ghost use Rattle.std.specs.Option.{is_none};
ghost use Rattle.std.specs.Result.{is_ok};
ghost use Rattle.schedule.specs.World.{venue_in};
ghost use Rattle.schedule.specs.Happening.{at_venue, with_venue};
ghost use Rattle.sweep_release.specs.Laws.{IsCounted};
ghost use Rattle.sweep_release.specs.Released.{released};
ghost use Rattle.sweep_release.specs.Desk.{gate_of, is_shut};
ghost use Rattle.sweep_release.specs.Desk as at_desk;
ghost use Rattle.world_restart.specs.Journal.{each_from};
ghost use Rattle.world_restart.specs.Start.{gate_started, venue_started, may_lose, sweeps_kept};
ghost use Rattle.replay.specs.declared.deed.Deed.TheVariants.{Started};
ghost use Rattle.replay.specs.DaySeen.{day_seen};
ghost use Rattle.replay.specs.Redoing.{frames_from, journal_by, journals_by};
ghost use Rattle.replay.specs.Ruling.{IsOpenDesk};
ghost use Rattle.replay.specs.Starting.{lost_at, keeps_line, all_keep, deeds_kept, line_kept, StandsAt, StandsBy};
ghost use Rattle.replay.specs.Starting.{AreLost, started_parts, world_by};

use crate::desk_again::{start_gate, venue_number};
use crate::loss_fault::LossFault;
use crate::ruling::broken_rule;
use crate::venue_journal::VenueJournal;
use crate::world::World;
use dialect::Dialect;
use leg::VenueId;
use std::alloc::AllocError;
use sweep_release::Desk;

/// How many of the last lines of a venue's journal are lost.
fn lost_of(lines: &[u64], number: usize) -> u64
    ensures { result ≡ lost_at lines.now number }
{
    match lines.get(number) {
        Some(lost) => *lost,
        None => 0,
    }
}

/// The desk made again from the kept sweeps, or which rule of the journal forbids that so much was lost: of the sweeps
/// first, and then venue by venue. The world is as it was. The only refusal is out of memory.
pub(crate) fn kept_desk<D: Dialect + Drop>(
    world: &mut World<D>,
    journals: &[VenueJournal],
    max_number: u64,
    sweeps: u64,
    lines: &[u64],
) -> Result<Result<Desk, LossFault>, AllocError>
    requires least { 16 ≤ max_number }
    requires most { max_number ≤ 999999999 }
    requires low { 1 ≤ length world.old.venues }
    requires count { length journals.now ≡ length world.old.venues }
    requires stands { StandsBy max_number world.old journals.now }
    ensures still { OnOk result (world.new ≡ world.old) }
    ensures rules { IfOk result (λ answer. is_ok answer
        ≡ may_lose (day_seen max_number world.old journals.now) (record { sweeps = sweeps; lines = lines.now })) }
    ensures sweeps { IfOk result (λ answer. IfOk answer (λ desk. desk.desk.sweeps
        ≡ sweeps_kept world.old (record { sweeps = sweeps; lines = lines.now }))) }
    ensures venues { IfOk result (λ answer. IfOk answer (λ desk. length desk.desk.venues ≡ length world.old.venues)) }
    ensures unshut { IfOk result (λ answer. IfOk answer (λ desk. IsOpenDesk desk.desk)) }
{
    let placed = world.sweeps_placed();
    if (placed as u64) < sweeps {
        return Ok(Err(LossFault::Sweeps {
            placed: placed as u64,
        }));
    }
    let desk = world.desk_again(placed - sweeps as usize)?;
    match unkept_rule(world, journals, max_number, lines, &desk)? {
        Some(fault) => Ok(Err(fault)),
        None => Ok(Ok(desk)),
    }
}

/// Which rule of the journal forbids that so much was lost, if one does, venue by venue. The world is as it was.
fn unkept_rule<D: Dialect + Drop>(
    world: &mut World<D>,
    journals: &[VenueJournal],
    max_number: u64,
    lines: &[u64],
    desk: &Desk,
) -> Result<Option<LossFault>, AllocError>
    requires least { 16 ≤ max_number }
    requires most { max_number ≤ 999999999 }
    requires count { length journals.now ≡ length world.old.venues }
    requires stands { StandsBy max_number world.old journals.now }
    ensures still { OnOk result (world.new ≡ world.old) }
    ensures rules { IfOk result (λ fault. is_none fault
        ≡ all_keep world.old desk.now.desk.sweeps lines.now 0 (journals_by max_number world.old journals.now)) }
{
    for number in 0..world.venues() {
        let lost = lost_of(lines, number);
        let venue = venue_number(number);
        let fault = unkept_at(world, venue, &journals[number], max_number, lost, desk)?;
        if fault.is_some() {
            return Ok(fault);
        }
    }
    Ok(None)
}

/// Which rule forbids that so many of the last lines of a venue's journal were lost. The dispatcher's side is made
/// again by the deeds that were kept, and then by all of them.
fn unkept_at<D: Dialect + Drop>(
    world: &mut World<D>,
    venue: VenueId,
    journal: &VenueJournal,
    max_number: u64,
    lost: u64,
    desk: &Desk,
) -> Result<Option<LossFault>, AllocError>
    requires least { 16 ≤ max_number }
    requires most { max_number ≤ 999999999 }
    requires there { venue < length world.old.venues }
    requires stands { IfSome (venue_in world.old venue) (StandsAt max_number world.old venue journal.now) }
    ensures still { OnOk result (world.new ≡ world.old) }
    ensures rules { IfOk result (λ fault. is_none fault ≡ keeps_line world.old venue desk.now.desk.sweeps lost
        (journal_by max_number (frames_from world.old venue) journal.now)) }
{
    let deeds = journal.deeds();
    if (deeds.len() as u64) < lost {
        return Ok(Some(LossFault::Journal {
            venue,
            lines: deeds.len() as u64 + 1,
        }));
    }
    let kept = deeds.len() - lost as usize;
    let gone = world.gone_ordinals(venue)?;
    let mark = world.stand_again(venue, journal.next(), max_number, &deeds[..kept])?;
    let fault = broken_rule(world, venue, &mark, journal.reached(), &gone, desk);
    world.stand_again(venue, journal.next(), max_number, deeds)?;
    Ok(fault)
}

/// The dispatcher is started again from what was kept. The only refusal is out of memory.
pub(crate) fn start_again<D: Dialect + Drop>(
    world: &mut World<D>,
    journals: &mut Vec<VenueJournal>,
    max_number: u64,
    lines: &[u64],
    mut desk: Desk,
) -> Result<(), AllocError>
    requires least { 16 ≤ max_number }
    requires most { max_number ≤ 999999999 }
    requires low { 1 ≤ length world.old.venues }
    requires count { length journals.old.items ≡ length world.old.venues }
    requires venues { length desk.desk.venues ≡ length world.old.venues }
    requires unshut { IsOpenDesk desk.desk }
    requires lost { AreLost lines.now journals.old.items }
    ensures world { OnOk result (world.new ≡ world_by max_number world.old lines.now journals.old.items desk.desk) }
    ensures journals { OnOk result (journals.new.items
        ≡ each_from (started_parts desk.desk.sweeps lines.now) 0 journals.old.items) }
{
    for number in 0..world.venues() {
        let lost = lost_of(lines, number);
        start_at(
            world,
            venue_number(number),
            &mut journals[number],
            max_number,
            lost,
            &mut desk,
        )?;
    }
    world.go_on_with(desk)
}

/// The start at a venue: the dispatcher's side is made again by the deeds that were kept, its connection is gone, and
/// the gate is down or shut. The journal goes on behind them, with the start.
fn start_at<D: Dialect + Drop>(
    world: &mut World<D>,
    venue: VenueId,
    journal: &mut VenueJournal,
    max_number: u64,
    lost: u64,
    desk: &mut Desk,
) -> Result<(), AllocError>
    requires least { 16 ≤ max_number }
    requires most { max_number ≤ 999999999 }
    requires there { venue < length world.old.venues }
    requires at_desk { venue < length desk.old.desk.venues }
    requires unshut { is_shut (gate_of desk.old.desk venue) ≡ false }
    requires counted { IsCounted desk.old.desk venue }
    requires lost { lost ≤ length journal.old.deeds }
    ensures world { OnOk result (world.new ≡ at_venue world.old venue (λ at. with_venue world.old venue
        (venue_started (Some (line_kept max_number world.old venue lost journal.old)) at))) }
    ensures desk { OnOk result (desk.new.desk ≡ at_desk.with_venue venue (record {
      gate = gate_started (line_kept max_number world.old venue lost journal.old).is_shut;
      left = length (released venue desk.old.desk.sweeps);
    }) desk.old.desk) }
    ensures journal { OnOk result (journal.new ≡ record journal.old {
      deeds = deeds_kept lost journal.old ++ Started (length (released venue desk.old.desk.sweeps)) ∷ [];
    }) }
{
    let kept = journal.deeds().len() - lost as usize;
    let next = journal.next();
    let mark = world.stand_again(venue, next, max_number, &journal.deeds()[..kept])?;
    world.break_off(venue);
    start_gate(desk, venue, mark.is_shut);
    journal.start(kept, desk.released(venue).len())
}
