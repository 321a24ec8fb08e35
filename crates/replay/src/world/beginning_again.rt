//! What a start makes again.

ghost use Rattle.std.specs.Prelude.{◌≡◌, ◌<◌, ◌≤◌, length, take, IfOk, OnOk, IfSome};
ghost use Rattle.sweep_release.specs.Kept.{released_sweeps};
ghost use Rattle.schedule.specs.World.{venue_in};
ghost use Rattle.world_restart.specs.Start.{with_book};
ghost use Rattle.replay.specs.Ruling.{IsOpenDesk, gone_ordinals};
ghost use Rattle.replay.specs.Redoing.{frames_from, new_standing, redo_all, standing_by, stood_at};

use super::World;
use crate::book_again::book_again;
use crate::deed::Deed;
use crate::desk_again::desk_again;
use crate::mark::Mark;
use crate::redo::stand_again;
use dialect::Dialect;
use leg::{LegState, VenueId};
use std::alloc::AllocError;
use sweep_release::{Desk, DeskEntry};

impl<D: Dialect + Drop> World<D> {
    /// The dispatcher's side of a venue is made again, from its opening, by these deeds: how far the desk was with the
    /// venue. The only refusal is out of memory.
    pub(crate) fn stand_again(
        &mut self,
        venue: VenueId,
        next: bool,
        max_number: u64,
        deeds: &[Deed],
    ) -> Result<Mark, AllocError>
        requires there { venue < length self.old.venues }
        requires least { 16 ≤ max_number }
        requires most { max_number ≤ 999999999 }
        requires few { length deeds.now ≤ 9223372036854775807 }
        ensures world { OnOk result (self.new ≡ stood_at self.old venue
            (redo_all (frames_from self.old venue) (new_standing max_number next) deeds.now)) }
        ensures mark { IfOk result (λ mark. IfSome (venue_in self.new venue) (λ at. standing_by mark at
            ≡ redo_all (frames_from self.old venue) (new_standing max_number next) deeds.now)) }
    {
        stand_again(
            &mut self.venues[usize::from(venue.number())],
            next,
            max_number,
            deeds,
        )
    }

    /// How many sweeps were placed.
    pub(crate) fn sweeps_placed(&self) -> usize
        ensures { result ≡ length self.now.desk.sweeps }
    {
        count_sweeps(self.desk.history())
    }

    /// A desk at which the first so many sweeps were released again. The only refusal is out of memory.
    pub(crate) fn desk_again(&self, kept: usize) -> Result<Desk, AllocError>
        requires low { 1 ≤ length self.now.venues }
        ensures sweeps { IfOk result (λ desk. desk.desk.sweeps ≡ take kept self.now.desk.sweeps) }
        ensures venues { IfOk result (λ desk. length desk.desk.venues ≡ length self.now.venues) }
        ensures unshut { IfOk result (λ desk. IsOpenDesk desk.desk) }
    {
        desk_again(*self.venues.allocator(), &self.desk, kept)
    }

    /// The ordinals of the legs of a venue that are withdrawn, in order. The only refusal is out of memory.
    pub(crate) fn gone_ordinals(&self, venue: VenueId) -> Result<Vec<u64>, AllocError>
        ensures { IfOk result (λ gone. gone.items ≡ gone_ordinals self.now venue) }
    {
        let mut gone = Vec::new(*self.venues.allocator());
        for at in 0..self.released(venue).len() {
            let ordinal = at as u64 + 1;
            match self.state(venue, ordinal) {
                Some(LegState::Withdrawn) => gone.push(ordinal)?,
                Some(LegState::Queued) => {}
                Some(LegState::Doubt) => {}
                Some(LegState::Taken) => {}
                None => {}
            }
        }
        Ok(gone)
    }

    /// The desk is this one, and the book is made again. The only refusal is out of memory.
    pub(crate) fn go_on_with(&mut self, desk: Desk) -> Result<(), AllocError>
        requires low { 1 ≤ length self.old.venues }
        requires count { length desk.desk.venues ≡ length self.old.venues }
        ensures { OnOk result (self.new ≡ with_book (record self.old { desk = desk.desk })) }
    {
        let alloc = *self.venues.allocator();
        self.desk = desk;
        self.book = book_again(alloc, self)?;
        Ok(())
    }
}

/// How many sweeps a desk's history has.
fn count_sweeps(history: &[DeskEntry]) -> usize
    ensures { result ≡ length (released_sweeps history.now) }
{
    let mut count = 0;
    for entry in history {
        if let DeskEntry::Released(_) = entry {
            count += 1;
        }
    }
    count
}
