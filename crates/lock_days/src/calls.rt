//! The calls of a turn.

ghost use Rattle.release_lock.specs.Held.{OnlyLowers};

use crate::answer::Answer;
use crate::day::Played;
use crate::turn::{Reported, Turn};
use dialect::{ExecId, Fill, LastPx, Note, Report, ReportKind};
use exec_collector::Accounts;
use kept_link::Untold;
use leg::{LegId, VenueId};
use release_lock::Run;
use report_words::ReportWords;
use std::sync::Wait;
use sweep_release::{Desk, GateFault, ReleaseFault};
use trial::{Order, Post, TrialFault, sweep_of};

/// Puts a gate down, if the desk has it.
fn gate_down(desk: &mut Desk, at: VenueId)
    ensures { OnlyLowers desk.old desk.new }
{
    if usize::from(at.number()) < desk.venues() {
        desk.gate_down(at);
    }
}

/// A report on the first leg of sweep 1.
fn note_of(exec: &str, says: Reported) -> Option<Note> {
    let kind = match says {
        Reported::Trade(shares) => ReportKind::Trade(Fill::new(shares, LastPx::new(b"10")?)?),
        Reported::Canceled => ReportKind::Canceled,
    };
    Some(Note::Report(Report {
        id: LegId::new(1, 1),
        exec: ExecId::new(exec.as_bytes())?,
        kind,
    }))
}

/// The next leg of a ring while fewer than `count` were popped in all, if the ring has one. One out of its order is a
/// fault.
fn pop_to<L: Run, M: Accounts>(
    rt: &impl Wait,
    post: &mut Post<L, M>,
    count: u64,
) -> Result<Option<LegId>, TrialFault> {
    match post.drain.pop_to(rt, count) {
        Some(placed) if placed.ordinal == post.drain.popped() => Ok(Some(placed.leg.id)),
        Some(_) => Err(TrialFault::OutOfOrder),
        None => Ok(None),
    }
}

impl<L: Run, M: Accounts> Played<L, M> {
    /// The calls of a turn.
    pub fn call(&mut self, rt: &impl Wait, turn: &Turn) -> Result<Answer, TrialFault> {
        match turn {
            Turn::Release(orders) => self.release(rt, orders),
            Turn::Raise(venue) => self.raise(rt, *venue),
            Turn::Lower(venue) => self.lower(rt, *venue),
            Turn::Pump(venue) => self.pump(rt, *venue),
            Turn::Pop { venue, legs } => self.pop(rt, *venue, *legs, false),
            Turn::Drop { venue, legs } => self.pop(rt, *venue, *legs, true),
            Turn::Book { exec, says } => self.book(rt, exec, *says),
        }
    }

    /// A sweep is released.
    fn release(&mut self, rt: &impl Wait, orders: &[Order]) -> Result<Answer, TrialFault> {
        let sweep = sweep_of(self.alloc, orders)?;
        let floor = &mut self.floor;
        match floor
            .lock
            .release(rt, &floor.collector, sweep, &mut floor.seat)
        {
            Ok(receipt) => Ok(Answer::Released(receipt)),
            Err(ReleaseFault::OutOfMemory) => Err(TrialFault::OutOfMemory),
            Err(fault) => Ok(Answer::Refused(fault)),
        }
    }

    /// A gate goes up.
    fn raise(&mut self, rt: &impl Wait, venue: usize) -> Result<Answer, TrialFault> {
        match self.floor.lock.raise(rt, &self.post(venue)?.drain) {
            Ok(()) => Ok(Answer::Raised),
            Err(GateFault::OutOfMemory) => Err(TrialFault::OutOfMemory),
            Err(fault) => Ok(Answer::NotRaised(fault)),
        }
    }

    /// A gate goes down.
    fn lower(&mut self, rt: &impl Wait, venue: usize) -> Result<Answer, TrialFault> {
        let at = self.post(venue)?.drain.venue();
        self.floor
            .lock
            .with(rt, |desk: &mut Desk| gate_down(desk, at));
        Ok(Answer::Lowered)
    }

    /// Legs are moved into a venue's ring.
    fn pump(&mut self, rt: &impl Wait, venue: usize) -> Result<Answer, TrialFault> {
        let at = self.post(venue)?.drain.venue();
        Ok(Answer::Pushed(self.floor.lock.pump(rt, at)))
    }

    /// A worker pops so many legs, or as many as its ring has. It may withdraw each in the book.
    fn pop(
        &mut self,
        rt: &impl Wait,
        venue: usize,
        legs: u64,
        withdraws: bool,
    ) -> Result<Answer, TrialFault> {
        let post = self.floor.posts.get_mut(venue);
        let post = post.ok_or(TrialFault::Missing)?;
        let before = post.drain.popped();
        let count = before.saturating_add(legs);
        // One more than there are to be: it isn't given, though the ring may have it.
        for _ in 0..legs.saturating_add(1) {
            let Some(id) = pop_to(rt, post, count)? else {
                break;
            };
            if withdraws {
                self.floor
                    .collector
                    .withdraw(rt, id, &mut post.seat, &Untold)?;
            }
        }
        Ok(Answer::Popped(post.drain.popped().saturating_sub(before)))
    }

    /// A report is booked by the worker of the first venue.
    fn book(&mut self, rt: &impl Wait, exec: &str, says: Reported) -> Result<Answer, TrialFault> {
        let note = note_of(exec, says).ok_or(TrialFault::Missing)?;
        let words = ReportWords::none();
        let post = self.floor.posts.first_mut().ok_or(TrialFault::Missing)?;
        let applied = self
            .floor
            .collector
            .apply(rt, &note, &words, &mut post.seat)?;
        Ok(Answer::Booked(applied))
    }
}
