//! The sweeps that were placed under references.

ghost use Rattle.std.specs.Prelude.{◌≡◌, ◌≤◌, ◌+◌, ◌⊎◌, [], None, IfOk, MatchResult, OnOk, option_map};
ghost use Rattle.sweep_refs.specs.Placed.{AreDistinct, placed_under};
ghost use Rattle.desk_floor.specs.Release.{AnswersKnown, AnswersOnce, IsReleased, noted, noted_again};
ghost use Rattle.desk_floor.specs.Release.{placed_after, placed_shares};

use crate::floor::Floor;
use desk_answers::{Answer, Refusal};
use exec_collector::Accounts;
use kept_link::Telling;
use leg::{Legs, Routed, Sweep};
use release_lock::{Asked, CallerSeat, Run};
use std::alloc::{AllocError, Global};
use std::io::Write;
use std::sync::Wait;
use std::time::Clock;
use sweep_refs::{Found, Placement, RefBook, SweepRef};

/// The sweeps that were placed under references. Whoever hands one in under a reference holds them until it is
/// answered.
#[derive(Drop)]
pub struct Refs {
    alloc: Global,
    book: RefBook,
}

/// The same leg once more. The only refusal is out of memory.
fn same_leg(leg: &Routed) -> Result<Routed, AllocError>
    ensures { IfOk result (λ copy. copy ≡ leg.now) }
{
    Ok(Routed {
        venue: leg.venue,
        terms: leg.terms.clone()?,
    })
}

/// The same legs once more. The only refusal is out of memory.
#[tactic(auto, using(crate::proofs::Copied::one_more))]
fn copy_of(alloc: Global, legs: &[Routed]) -> Result<Legs, AllocError>
    ensures { IfOk result (λ copy. copy ≡ legs.now) }
{
    let mut copy = Vec::new(alloc);
    for leg in legs {
        copy.push(same_leg(leg)?)?;
    }
    Ok(Legs::new(copy))
}

impl Refs {
    /// None yet.
    pub fn new(alloc: Global) -> Refs
        ensures { result.book.placed ≡ [] }
    {
        Refs {
            alloc,
            book: RefBook::new(alloc),
        }
    }

    /// Notes a sweep that was placed under this reference in a life before. Where one was noted under it already,
    /// nothing changes. The only refusal is out of memory, and nothing changes.
    pub fn note_again(
        &mut self,
        reference: SweepRef,
        placement: Placement,
    ) -> Result<(), AllocError>
        ensures { MatchResult result
            (λ _. self.new.book.placed ≡ noted_again self.old.book.placed reference placement)
            (λ _. self.new.book.placed ≡ self.old.book.placed) }
    {
        if self.book.placement(&reference).is_some() {
            return Ok(());
        }
        self.book.reserve()?;
        self.book.note(reference, placement);
        Ok(())
    }

    /// The number under which a sweep was placed under a reference, if one was.
    pub(crate) fn number(&self, reference: &SweepRef) -> Option<u64>
        ensures found { result
            ≡ option_map (λ known. known.number) (placed_under self.now.book.placed reference.now) }
        ensures distinct { AreDistinct self.now.book.placed }
    {
        let placement = self.book.placement(reference)?;
        Some(placement.number)
    }

    /// The same legs once more, and room to note what is placed. The only refusal is out of memory.
    fn prepare(&mut self, legs: &[Routed]) -> Result<Legs, AllocError>
        ensures legs { IfOk result (λ copy. copy ≡ legs.now) }
        ensures room { OnOk result (1 ≤ self.new.book.room) }
        ensures placed { self.new.book.placed ≡ self.old.book.placed }
    {
        let copy = copy_of(self.alloc, legs)?;
        self.book.reserve()?;
        Ok(copy)
    }

    /// Notes a sweep of these legs under a reference that is free, where the answer says that it was placed.
    fn note(&mut self, reference: SweepRef, legs: Legs, answer: &Answer)
        requires room { 1 ≤ self.old.book.room }
        requires free { placed_under self.old.book.placed reference ≡ None }
        ensures { self.new.book.placed ≡ noted self.old.book.placed reference legs answer.now }
    {
        match answer {
            Answer::Placed { sweep, shares } => {
                let placement = Placement {
                    number: *sweep,
                    shares: *shares,
                    legs,
                };
                self.book.note(reference, placement);
            }
            Answer::Again { .. } => {}
            Answer::Refused(_) => {}
            Answer::Closing => {}
            Answer::BadLine { .. } => {}
        }
    }

    /// Places a sweep under a reference that is free, and notes it. Room is there before anything is placed.
    fn place_new<L: Run, M: Accounts, W: Write + Drop, J: Telling, R: Wait + Clock>(
        &mut self,
        rt: &R,
        floor: &Floor<L, M, W, J>,
        seat: &mut CallerSeat<L>,
        asked: &Asked<'_>,
        reference: SweepRef,
        sweep: Sweep,
    ) -> Answer
        requires { placed_under self.old.book.placed reference ≡ None }
        ensures answer { IsReleased (option_map (λ l. l.now) asked.now.limits) floor.now.names.items sweep.legs result
            ⊎ (result ≡ Answer.Refused Refusal.OutOfMemory) }
        ensures after { self.new.book.placed ≡ noted self.old.book.placed reference sweep.legs result }
        ensures parts { seat.new.parts ≡ seat.old.parts }
        ensures counted { seat.new.shares ≡ seat.old.shares + placed_shares result sweep.legs }
        ensures placed { seat.new.placed ≡ placed_after seat.old.placed result sweep.legs }
    {
        let Ok(legs) = self.prepare(sweep.legs.as_slice()) else {
            return Answer::Refused(Refusal::OutOfMemory);
        };
        let answer = floor.release(rt, seat, asked, sweep);
        self.note(reference, legs, &answer);
        answer
    }

    /// The answer to a sweep that was placed under its reference: the number and the shares that were placed, for these
    /// legs; a refusal for others. None where the reference is free.
    pub(crate) fn answer(&self, reference: &SweepRef, legs: &[Routed]) -> Option<Answer>
        ensures known { AnswersKnown (placed_under self.now.book.placed reference.now) legs.now result }
        ensures distinct { AreDistinct self.now.book.placed }
    {
        match self.book.look(reference, legs) {
            Found::Same { number, shares } => Some(Answer::Again {
                sweep: number,
                shares,
            }),
            Found::Others => Some(Answer::Refused(Refusal::OtherLegs)),
            Found::Nothing => None,
        }
    }

    /// Places a sweep under a reference, at most once: where these legs were placed under it before, it is answered
    /// with their number and their shares, and others are refused.
    pub(crate) fn place<L: Run, M: Accounts, W: Write + Drop, J: Telling, R: Wait + Clock>(
        &mut self,
        rt: &R,
        floor: &Floor<L, M, W, J>,
        seat: &mut CallerSeat<L>,
        asked: &Asked<'_>,
        reference: SweepRef,
        sweep: Sweep,
    ) -> Answer
        ensures once { AnswersOnce (option_map (λ l. l.now) asked.now.limits) floor.now.names.items
            self.old.book.placed reference sweep.legs result self.new.book.placed }
        ensures parts { seat.new.parts ≡ seat.old.parts }
        ensures counted { seat.new.shares ≡ seat.old.shares + placed_shares result sweep.legs }
        ensures placed { seat.new.placed ≡ placed_after seat.old.placed result sweep.legs }
    {
        match self.answer(&reference, sweep.legs.as_slice()) {
            Some(answer) => answer,
            None => self.place_new(rt, floor, seat, asked, reference, sweep),
        }
    }
}
