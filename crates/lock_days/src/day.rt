//! A day at a lock.

use crate::answer::Answer;
use crate::days::LockDay;
use crate::ending::tell_sums;
use crate::standing::{PostStanding, Standing, desk_standing};
use crate::turn::Turn;
use exec_collector::Accounts;
use release_lock::Run;
use std::alloc::Global;
use std::fmt::Write;
use std::sync::Wait;
use sweep_release::Desk;
use trial::{Floor, Post, Trial, TrialFault, on_floor, room_for_text};

/// The most bytes that a day prints.
const MAX_TEXT: usize = 65_536;

/// A day that is played.
#[derive(Drop)]
pub struct Played<L: Run, M: Accounts> {
    pub alloc: Global,
    pub floor: Floor<L, M>,
}

impl<L: Run, M: Accounts> Played<L, M> {
    /// The post of a venue.
    pub fn post(&self, venue: usize) -> Result<&Post<L, M>, TrialFault> {
        self.floor.posts.get(venue).ok_or(TrialFault::Missing)
    }

    fn post_standing(&self, venue: usize) -> Option<PostStanding> {
        let post = self.floor.posts.get(venue)?;
        Some(PostStanding {
            popped: post.drain.popped(),
            resolved: post.seat.shares(),
        })
    }

    /// How all of it stands.
    fn standing(&self, rt: &impl Wait) -> Standing {
        let totals = |number: u64| self.floor.collector.totals(rt, number);
        Standing {
            desk: self
                .floor
                .lock
                .with(rt, |desk: &mut Desk| desk_standing(desk)),
            seat: self.floor.seat.shares(),
            posts: [self.post_standing(0), self.post_standing(1)],
            sweeps: [
                totals(1),
                totals(2),
                totals(3),
                totals(4),
                totals(5),
                totals(6),
            ],
        }
    }

    /// A turn, whose call is made again where it is refused memory: by then it must have changed nothing.
    fn take_turn(&mut self, rt: &impl Wait, turn: &Turn) -> Result<Answer, TrialFault> {
        let before = self.standing(rt);
        match self.call(rt, turn) {
            Err(TrialFault::OutOfMemory) => {
                if self.standing(rt) != before {
                    return Err(TrialFault::Changed);
                }
                self.call(rt, turn)
            }
            answer => answer,
        }
    }

    /// Adds the line of a turn.
    fn tell(&mut self, rt: &impl Wait, turn: &Turn, text: &mut String) -> Result<(), TrialFault> {
        let answer = self.take_turn(rt, turn)?;
        let standing = self.standing(rt);
        writeln!(text, "{turn}: {answer}; {standing}")?;
        Ok(())
    }
}

/// A day that is to be played.
#[derive(Drop)]
struct Playing {
    alloc: Global,
    day: LockDay,
}

impl<R: Wait> Trial<R> for Playing {
    /// The lines of the day.
    type End = Result<String, TrialFault>;

    fn run<L: Run, M: Accounts>(self, rt: &R, floor: Floor<L, M>) -> Result<String, TrialFault> {
        let Playing { alloc, day } = self;
        let mut text = room_for_text(alloc, MAX_TEXT)?;
        let name = day.name;
        writeln!(text, "day: {name}")?;
        let mut played = Played { alloc, floor };
        for turn in day.turns {
            played.tell(rt, turn, &mut text)?;
        }
        tell_sums(alloc, played.floor, &mut text)?;
        Ok(text)
    }
}

/// The day as lines. Where its floor is refused memory, another is opened: nothing was done by then.
pub fn told(rt: &impl Wait, alloc: Global, day: LockDay) -> Result<String, TrialFault> {
    match on_floor(rt, alloc, day.venues, Playing { alloc, day }) {
        Err(TrialFault::OutOfMemory) => on_floor(rt, alloc, day.venues, Playing { alloc, day })?,
        told => told?,
    }
}
