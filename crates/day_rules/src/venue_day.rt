//! The log of a venue.

ghost use Rattle.std.specs.Prelude.{◌≡◌, Some, None, option_and_then, slice_get, IfOk, OnOk, OnErr};
ghost use Rattle.log_legs.specs.Legs.{no_legs};
ghost use Rattle.log_rules.specs.Checker.{unread_verdicts, verdicts};
ghost use Rattle.day_rules.specs.Judged.{order_line};
ghost use Rattle.day_rules.specs.VenueDay.{new_venue, notes_parts, venue_heard, venue_unread};

use crate::notes::Notes;
use log_legs::Watch;
use log_rules::{Entry, Moment, Verdict};
use message_log::Direction;
use std::alloc::{AllocError, Global};
use std::marker::Model;

/// What is known of a venue's log behind the messages that were heard, and where things stand in it.
#[derive(Debug, Drop)]
pub struct VenueDay {
    watch: Watch,
    notes: Notes,
}

impl Model for VenueDay {
    ghost use Rattle.day_rules.specs.VenueDay.{VenueParts, notes_parts};

    ghost Value = { VenueParts };

    ghost view = { λ v. record { watch = v.watch; notes = notes_parts v.notes } };
}

impl VenueDay {
    /// Before any message; only the rules are asked.
    pub fn of_rules(alloc: Global) -> VenueDay
        ensures { result ≡ new_venue None }
    {
        VenueDay {
            watch: Watch::of_rules(alloc),
            notes: Notes::new(alloc),
        }
    }

    /// Before any message; the orders are kept too.
    pub fn of_legs(alloc: Global) -> VenueDay
        ensures { result ≡ new_venue (Some no_legs) }
    {
        VenueDay {
            watch: Watch::of_legs(alloc),
            notes: Notes::new(alloc),
        }
    }

    /// What the next message, in the line of this number, says of each rule, in the order of `RULES`. Where memory is
    /// refused, nothing changes.
    pub fn hear(&mut self, number: u64, entry: &Entry<'_>) -> Result<[Verdict; 22], AllocError>
        ensures verdicts { IfOk result (λ said. said ≡ verdicts self.old.watch.checker entry.now) }
        ensures ok { OnOk result (self.new ≡ venue_heard number entry.now self.old) }
        ensures err { OnErr result (self.new ≡ self.old) }
    {
        self.notes.reserve()?;
        let said = self.watch.hear(entry)?;
        self.notes
            .note(number, entry.moment, &said, self.watch.leg_count());
        Ok(said)
    }

    /// What a message that can't be read says of each rule, which went this way and has these bytes. Where memory is
    /// refused, nothing changes.
    pub fn hear_unread(
        &mut self,
        direction: Direction,
        bytes: &[u8],
    ) -> Result<[Verdict; 22], AllocError>
        ensures verdicts { IfOk result (λ said. said ≡ unread_verdicts) }
        ensures ok { OnOk result (self.new ≡ venue_unread direction bytes.now self.old) }
        ensures err { OnErr result (self.new ≡ self.old) }
    {
        self.watch.hear_unread(direction, bytes)
    }

    /// What is known behind the messages.
    pub fn watch(&self) -> &Watch
        ensures { result.now ≡ self.now.watch }
    {
        &self.watch
    }

    /// Where each rule was first broken.
    pub(crate) fn notes(&self) -> &Notes
        ensures { notes_parts result.now ≡ self.now.notes }
    {
        &self.notes
    }

    /// Where the order at a place was first sent.
    pub(crate) fn order_line(&self, place: Option<usize>) -> Option<u64>
        ensures { result ≡ order_line self.now place }
    {
        self.notes.orders.get(place?).copied()
    }

    /// When the order at a place was first sent.
    pub(crate) fn order_moment(&self, place: usize) -> Option<Moment>
        ensures { result ≡ slice_get self.now.notes.moments place }
    {
        self.notes.moments.get(place).copied()
    }
}
