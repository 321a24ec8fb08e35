//! A day on which the dispatcher may be killed at any moment, and started again from its journals.

ghost use Rattle.std.specs.Prelude.{◌≡◌, ◌≤◌, length, map, slice_get, IfOk, OnOk};
ghost use Rattle.std.specs.Option.{option_copied};
ghost use Rattle.std.specs.Result.{is_ok};
ghost use Rattle.schedule.specs.World.{opening};
ghost use Rattle.schedule.specs.SweepTheorem.{HoldsOf};
ghost use Rattle.world_restart.specs.Start.{may_lose};
ghost use Rattle.world_restart.specs.Day.{opening_day, after_event, after_crash};
ghost use Rattle.replay.specs.DaySeen.{new_parts, lines_of};
ghost use Rattle.replay.specs.Noting.{AreNoted};
ghost use Rattle.replay.specs.Telling.{told};

use crate::event_outcome::EventOutcome;
use crate::loss_fault::LossFault;
use crate::noted::note_event;
use crate::starting::{kept_desk, start_again};
use crate::venue_journal::VenueJournal;
use crate::world::{World, venue_of};
use dialect::Dialect;
use leg::VenueId;
use schedule::Event;
use std::alloc::{AllocError, Global};
use std::marker::Model;

/// A world, and what its dispatcher keeps on the disk: the sweeps, which the desk's history has, and a journal for each
/// venue.
#[derive(Drop)]
pub struct Day<D: Dialect + Drop> {
    world: World<D>,
    max_number: u64,
    journals: Vec<VenueJournal>,
    /// Whether no call wanted memory: after one that did the day is of no use, and each call wants it again.
    is_whole: bool,
}

impl<D: Dialect + Drop> Model for Day<D> {
    ghost use Rattle.std.specs.Prelude.{◌≡◌, true};
    ghost use Rattle.world_restart.specs.Start.{Day as ADay};
    ghost use Rattle.replay.specs.DaySeen.{day_seen, IsDay};

    ghost Value = { ADay };

    ghost view = { λ d. day_seen d.max_number d.world d.journals.items };

    ghost invariant = { λ d. d.is_whole ≡ true → IsDay d.max_number d.world d.journals.items };
}

/// The journals of venues that are opened, each with whether its session's Logons say which number it expects next
/// (789).
fn new_journals(alloc: Global, next: &[bool]) -> Result<Vec<VenueJournal>, AllocError>
    ensures { IfOk result (λ journals. journals.items ≡ map new_parts next.now) }
{
    let mut journals = Vec::with_capacity(alloc, next.len())?;
    for next in next {
        journals.push_reserved(VenueJournal::new(alloc, *next));
    }
    Ok(journals)
}

/// The journal of this place, if it is there.
fn journal_at(journals: &[VenueJournal], place: usize) -> Option<&VenueJournal>
    ensures { option_copied result ≡ slice_get journals.now place }
{
    journals.get(place)
}

/// The journal of an event's venue, if it is at one that is there, keeps what is kept of it, from the world before it.
/// The only refusal is out of memory.
fn keep_event<D: Dialect + Drop>(
    journals: &mut Vec<VenueJournal>,
    world: &World<D>,
    event: &Event,
) -> Result<(), AllocError>
    requires { length journals.old.items ≡ length world.now.venues }
    ensures { OnOk result (AreNoted world.now event.now journals.old.items journals.new.items) }
{
    let Some(venue) = venue_of(event) else {
        return Ok(());
    };
    let at = usize::from(venue.number());
    if at >= journals.len() {
        return Ok(());
    }
    let noted = note_event(world, venue, event);
    journals[at].keep(noted)
}

impl<D: Dialect + Drop> Day<D> {
    /// A new day of a venue for each dialect, 1 to 16, and for each whether its session's Logons say which number it
    /// expects next (789). `max_number`, which no message of a session has, is 16 to 999,999,999. The only refusal is
    /// out of memory.
    pub fn new(
        alloc: Global,
        dialects: Vec<D>,
        next: &[bool],
        max_number: u64,
    ) -> Result<Day<D>, AllocError>
        requires low { 1 ≤ length next.now }
        requires high { length next.now ≤ 16 }
        requires each { length dialects.items ≡ length next.now }
        requires least { 16 ≤ max_number }
        requires most { max_number ≤ 999999999 }
        ensures day { IfOk result (λ day. day ≡ opening_day (opening next.now max_number)) }
    {
        let world = World::new(alloc, dialects, next, max_number)?;
        let journals = new_journals(alloc, next)?;
        Ok(Day {
            world,
            max_number,
            journals,
            is_whole: true,
        })
    }

    /// The world as it is now.
    pub fn world(&self) -> &World<D>
        ensures { result.now ≡ self.now.world }
    {
        &self.world
    }

    /// How many lines the journal of a venue has, with that of its opening; 0 where there is no such venue.
    pub fn lines(&self, venue: VenueId) -> u64
        ensures { result ≡ lines_of self.now venue }
    {
        match journal_at(&self.journals, usize::from(venue.number())) {
            Some(journal) => journal.deeds().len() as u64 + 1,
            None => 0,
        }
    }

    /// An event happens: what it told, besides the day after it. At a venue that isn't there it does nothing. The only
    /// refusal is out of memory, and the day is then of no use.
    pub fn happen(&mut self, event: Event) -> Result<EventOutcome, AllocError>
        ensures day { OnOk result (self.new ≡ after_event self.old event) }
        ensures told { IfOk result (λ answer. answer ≡ told self.old.world event) }
        ensures theorem { OnOk result (HoldsOf self.new.world) }
    {
        if !self.is_whole {
            return Err(AllocError);
        }
        self.is_whole = false;
        keep_event(&mut self.journals, &self.world, &event)?;
        let told = self.world.happen(event)?;
        self.is_whole = true;
        Ok(told)
    }

    /// The dispatcher is killed, and so many of the last sweeps, and of the last lines of each venue's journal, weren't
    /// on the disk; venues that aren't named lost none. It is started again from what was kept: desk, book and sessions
    /// are made again by the calls that made them, and the exchanges go on. Where a rule of the journal forbids that so
    /// much was lost nothing happens, and the answer says which. The only refusal is out of memory, and the day is then
    /// of no use.
    pub fn crash(&mut self, sweeps: u64, lines: &[u64]) -> Result<Result<(), LossFault>, AllocError>
        ensures rules { IfOk result (λ answer. is_ok answer
            ≡ may_lose self.old (record { sweeps = sweeps; lines = lines.now })) }
        ensures day { OnOk result (self.new ≡ after_crash self.old (record { sweeps = sweeps; lines = lines.now })) }
        ensures theorem { OnOk result (HoldsOf self.new.world) }
    {
        if !self.is_whole {
            return Err(AllocError);
        }
        self.is_whole = false;
        let kept = kept_desk(
            &mut self.world,
            &self.journals,
            self.max_number,
            sweeps,
            lines,
        )?;
        match kept {
            Err(fault) => {
                self.is_whole = true;
                Ok(Err(fault))
            }
            Ok(desk) => {
                start_again(
                    &mut self.world,
                    &mut self.journals,
                    self.max_number,
                    lines,
                    desk,
                )?;
                self.is_whole = true;
                Ok(Ok(()))
            }
        }
    }
}
