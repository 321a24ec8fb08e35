//! The sweeps that were refused.

ghost use Rattle.std.specs.Prelude.{◌≡◌, ◌-◌, IfOk};
ghost use Rattle.std.specs.Option.{option_map};
ghost use Rattle.desk_floor.specs.Refused.{KeepsLast, counted, counted_over, last_of, raised};

use desk_answers::{Answer, Refusal};
use desk_words::VenueName;
use order_limits::Over;
use std::alloc::{AllocError, Global};
use std::collections::VecDeque;
use std::sync::{Mutex, Wait};

/// How many of the last refusals are kept.
const MOST_KEPT: usize = 64;

/// How many sweeps were refused, by the reason.
#[derive(Clone, Copy, Debug, PartialEq, Eq)]
pub struct RefusedCounts {
    pub no_legs: u64,
    pub too_many_legs: u64,
    pub unknown_venue: u64,
    pub gate_down: u64,
    pub backlog_full: u64,
    pub sweeps_spent: u64,
    pub out_of_memory: u64,
    pub wrong_book: u64,
    pub other_legs: u64,
    pub no_reference: u64,
    pub leg_shares: u64,
    pub leg_dollars: u64,
    pub sweep_dollars: u64,
    pub day_dollars: u64,
    pub other_symbol: u64,
    /// Since the day was closing.
    pub closing: u64,
}

/// What was refused since some moment.
#[derive(Drop)]
pub struct RefusedSince {
    /// How many were refused up to now: the next moment to ask from.
    pub number: u64,
    /// The last of them, in their order, at most 64; none is there for a sweep that came while the day was closing.
    pub refusals: Vec<Option<Refusal>>,
}

/// What is known of them.
#[derive(Drop)]
struct Kept {
    counts: RefusedCounts,
    /// How many were refused.
    number: u64,
    last: VecDeque<Option<Refusal>>,
}

/// The sweeps that were refused, whoever handed them in: how many by each reason, and the last of them.
#[derive(Drop)]
pub struct Refusals {
    alloc: Global,
    kept: Mutex<Kept>,
}

/// One more.
fn raise(count: &mut u64)
    ensures { count.new ≡ raised count.old }
{
    *count = count.saturating_add(1);
}

/// The name of the same venue once more.
fn copied(venue: &Option<VenueName>) -> Option<VenueName>
    ensures { result ≡ venue.now }
{
    let venue = venue.as_ref()?;
    Some(venue.clone().unwrap())
}

/// The same refusal once more.
fn copy_of(refusal: &Refusal) -> Refusal
    ensures { result ≡ refusal.now }
{
    match refusal {
        Refusal::NoLegs => Refusal::NoLegs,
        Refusal::TooManyLegs => Refusal::TooManyLegs,
        Refusal::UnknownVenue => Refusal::UnknownVenue,
        Refusal::GateDown(venue) => Refusal::GateDown(venue.clone().unwrap()),
        Refusal::BacklogFull(venue) => Refusal::BacklogFull(venue.clone().unwrap()),
        Refusal::SweepsSpent => Refusal::SweepsSpent,
        Refusal::OutOfMemory => Refusal::OutOfMemory,
        Refusal::WrongBook => Refusal::WrongBook,
        Refusal::OtherLegs => Refusal::OtherLegs,
        Refusal::NoReference => Refusal::NoReference,
        Refusal::OverLimit { venue, over } => Refusal::OverLimit {
            venue: copied(venue),
            over: over.copied(),
        },
    }
}

impl RefusedCounts {
    /// None was refused.
    fn none() -> RefusedCounts {
        RefusedCounts {
            no_legs: 0,
            too_many_legs: 0,
            unknown_venue: 0,
            gate_down: 0,
            backlog_full: 0,
            sweeps_spent: 0,
            out_of_memory: 0,
            wrong_book: 0,
            other_legs: 0,
            no_reference: 0,
            leg_shares: 0,
            leg_dollars: 0,
            sweep_dollars: 0,
            day_dollars: 0,
            other_symbol: 0,
            closing: 0,
        }
    }

    /// Counts a sweep that is over this limit.
    fn count_over(&mut self, over: &Over)
        ensures { self.new ≡ counted_over self.old over.now }
    {
        match over {
            Over::LegShares { .. } => raise(&mut self.leg_shares),
            Over::LegDollars { .. } => raise(&mut self.leg_dollars),
            Over::SweepDollars { .. } => raise(&mut self.sweep_dollars),
            Over::DayDollars { .. } => raise(&mut self.day_dollars),
            Over::OtherSymbol { .. } => raise(&mut self.other_symbol),
        }
    }

    /// Counts one that is refused for this reason; or for none, since the day is closing.
    fn count(&mut self, refusal: Option<&Refusal>)
        ensures { self.new ≡ counted self.old (option_map (λ r. r.now) refusal.entry) }
    {
        match refusal {
            Some(Refusal::NoLegs) => raise(&mut self.no_legs),
            Some(Refusal::TooManyLegs) => raise(&mut self.too_many_legs),
            Some(Refusal::UnknownVenue) => raise(&mut self.unknown_venue),
            Some(Refusal::GateDown(_)) => raise(&mut self.gate_down),
            Some(Refusal::BacklogFull(_)) => raise(&mut self.backlog_full),
            Some(Refusal::SweepsSpent) => raise(&mut self.sweeps_spent),
            Some(Refusal::OutOfMemory) => raise(&mut self.out_of_memory),
            Some(Refusal::WrongBook) => raise(&mut self.wrong_book),
            Some(Refusal::OtherLegs) => raise(&mut self.other_legs),
            Some(Refusal::NoReference) => raise(&mut self.no_reference),
            Some(Refusal::OverLimit { over, .. }) => self.count_over(over),
            None => raise(&mut self.closing),
        }
    }
}

impl Kept {
    /// Counts a refusal, and keeps it if there is memory.
    fn note(&mut self, refusal: Option<&Refusal>)
        ensures counts { self.new.counts ≡ counted self.old.counts (option_map (λ r. r.now) refusal.entry) }
        ensures number { self.new.number ≡ raised self.old.number }
        ensures last { KeepsLast 64 (option_map (λ r. r.now) refusal.entry) self.old.last.items self.new.last.items }
    {
        self.counts.count(refusal);
        raise(&mut self.number);
        if self.last.len() >= MOST_KEPT {
            self.last.pop_front();
        }
        let _ = self.last.push_back(refusal.map(copy_of));
    }

    /// What was refused since so many were, as far as it is kept.
    #[tactic(auto, using(crate::proofs::LastRefusals::to_the_end))]
    fn since(&self, alloc: Global, number: u64) -> Result<RefusedSince, AllocError>
        ensures number { IfOk result (λ since. since.number ≡ self.now.number) }
        ensures last { IfOk result (λ since. since.refusals.items
            ≡ last_of (self.now.number - number) self.now.last.items) }
    {
        let new = self.number.saturating_sub(number);
        let skipped = (self.last.len() as u64).saturating_sub(new) as usize;
        let mut refusals = Vec::new(alloc);
        for refusal in self.last.range(skipped..) {
            refusals.push(refusal.as_ref().map(copy_of))?;
        }
        Ok(RefusedSince {
            number: self.number,
            refusals,
        })
    }
}

impl Refusals {
    /// None yet.
    pub fn new(alloc: Global) -> Refusals {
        Refusals {
            alloc,
            kept: Mutex::new(Kept {
                counts: RefusedCounts::none(),
                number: 0,
                last: VecDeque::new(alloc),
            }),
        }
    }

    /// Takes note of an answer, if it is a refusal. It may wait for the lock.
    pub(crate) fn note(&self, rt: &impl Wait, answer: &Answer) {
        match answer {
            Answer::Refused(refusal) => self.kept.lock(rt).note(Some(refusal)),
            Answer::Closing => self.kept.lock(rt).note(None),
            Answer::Placed { .. } | Answer::Again { .. } | Answer::BadLine { .. } => {}
        }
    }

    /// How many were refused, by the reason. It may wait for the lock.
    pub fn counts(&self, rt: &impl Wait) -> RefusedCounts {
        self.kept.lock(rt).counts
    }

    /// How many were refused in all. It may wait for the lock.
    pub fn number(&self, rt: &impl Wait) -> u64 {
        self.kept.lock(rt).number
    }

    /// What was refused since so many were. It may wait for the lock. The only refusal is out of memory.
    pub fn since(&self, rt: &impl Wait, number: u64) -> Result<RefusedSince, AllocError> {
        self.kept.lock(rt).since(self.alloc, number)
    }
}
