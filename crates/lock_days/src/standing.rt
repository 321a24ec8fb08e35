//! How the desk, the book, the seats and the rings stand.

ghost use Rattle.std.specs.Prelude.{◌≡◌};
ghost use Rattle.release_lock.specs.Held.{OnlyLowers};

use leg::{Totals, VenueId};
use std::fmt;
use sweep_release::{Desk, DeskEntry, Gate};
use trial::{Parts, gate_name};

/// How a venue stands at the desk.
#[derive(Clone, Copy, Debug, PartialEq, Eq)]
pub struct VenueStanding {
    pub gate: Gate,
    /// Legs that are placed.
    pub placed: usize,
    /// Legs that left for the ring.
    pub left: usize,
}

/// How the desk stands.
#[derive(Clone, Copy, Debug, PartialEq, Eq)]
pub struct DeskStanding {
    pub entries: usize,
    pub placed_shares: u64,
    /// How many legs the last sweep has that was released.
    pub last_legs: usize,
    pub venues: [Option<VenueStanding>; 2],
}

/// What a venue's worker popped, and the shares that it resolved.
#[derive(Clone, Copy, Debug, PartialEq, Eq)]
pub struct PostStanding {
    pub popped: u64,
    pub resolved: u64,
}

/// How the desk, the book, the seats and the rings stand, as far as their questions tell.
#[derive(Clone, Copy, Debug, PartialEq, Eq)]
pub struct Standing {
    pub desk: DeskStanding,
    /// The shares of the caller's seat.
    pub seat: u64,
    pub posts: [Option<PostStanding>; 2],
    /// The shares of the first six sweeps.
    pub sweeps: [Option<Totals>; 6],
}

fn venue_standing(desk: &Desk, number: u8) -> Option<VenueStanding> {
    let Ok(venue) = VenueId::new(number) else {
        return None;
    };
    if usize::from(venue.number()) >= desk.venues() {
        return None;
    }
    Some(VenueStanding {
        gate: desk.gate(venue),
        placed: desk.placed(venue),
        left: desk.left(venue),
    })
}

/// How many legs the last sweep has that was released.
fn last_legs(desk: &Desk) -> usize {
    let mut legs = 0;
    for entry in desk.history() {
        if let DeskEntry::Released(sweep) = entry {
            legs = sweep.legs.len();
        }
    }
    legs
}

/// How a desk stands. It is only asked.
pub fn desk_standing(desk: &mut Desk) -> DeskStanding
    ensures { OnlyLowers desk.old desk.new }
{
    DeskStanding {
        entries: desk.history().len(),
        placed_shares: desk.placed_shares(),
        last_legs: last_legs(desk),
        venues: [venue_standing(desk, 0), venue_standing(desk, 1)],
    }
}

impl fmt::Display for VenueStanding {
    fn fmt<W: fmt::Write>(&self, f: &mut fmt::Formatter<W>) -> fmt::Result {
        let gate = gate_name(self.gate);
        let placed = self.placed;
        let left = self.left;
        write!(f, "{gate} placed {placed} left {left}")
    }
}

impl fmt::Display for DeskStanding {
    fn fmt<W: fmt::Write>(&self, f: &mut fmt::Formatter<W>) -> fmt::Result {
        let entries = self.entries;
        let placed_shares = self.placed_shares;
        let last_legs = self.last_legs;
        write!(
            f,
            "desk shares {placed_shares} entries {entries} last {last_legs}"
        )?;
        for venue in self.venues.iter().flatten() {
            write!(f, ", {venue}")?;
        }
        Ok(())
    }
}

impl fmt::Display for Standing {
    fn fmt<W: fmt::Write>(&self, f: &mut fmt::Formatter<W>) -> fmt::Result {
        let desk = self.desk;
        let seat = self.seat;
        write!(f, "{desk}; seat {seat}")?;
        for PostStanding { popped, resolved } in self.posts.iter().flatten() {
            write!(f, "; popped {popped} resolved {resolved}")?;
        }
        for totals in self.sweeps.iter().flatten() {
            let parts = Parts(*totals);
            write!(f, ";{parts}")?;
        }
        Ok(())
    }
}
