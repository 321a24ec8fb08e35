//! Where things stand in a venue's log.

ghost use Rattle.std.specs.Prelude.{◌≡◌, ◌<◌, length, vec_capacity, OnOk};
ghost use Rattle.day_rules.specs.VenueDay.{breaks, fails, no_notes, noted, notes_parts};

use crate::lines::{first_line, note_line, note_moment};
use log_rules::{Moment, Verdict};
use std::alloc::{AllocError, Global};

/// The places of rules among `RULES`.
const SENT_ONCE: usize = 2;

const ONE_USE: usize = 10;

const KNOWN_ORDER: usize = 11;

const NOT_WITHDRAWN: usize = 12;

const SUMS_ADD_UP: usize = 13;

/// Where and when each order was first sent, and the first line that breaks each of these rules, by the numbers of
/// lines.
#[derive(Debug, Drop)]
pub(crate) struct Notes {
    pub orders: Vec<u64>,
    pub moments: Vec<Moment>,
    pub sent_once: Option<u64>,
    pub one_use: Option<u64>,
    pub known_order: Option<u64>,
    pub not_withdrawn: Option<u64>,
    pub sums_add_up: Option<u64>,
}

/// Whether the rule at a place is broken, of the verdicts on all rules.
fn breaks(said: &[Verdict; 22], place: usize) -> bool
    ensures { result ≡ breaks said.now place }
{
    match said.get(place) {
        Some(verdict) => *verdict == Verdict::Broken,
        None => false,
    }
}

/// Whether the rule at a place is broken, also where it is told as broken again.
fn fails(said: &[Verdict; 22], place: usize) -> bool
    ensures { result ≡ fails said.now place }
{
    match said.get(place) {
        Some(verdict) => matches!(verdict, Verdict::Broken | Verdict::Again),
        None => false,
    }
}

impl Notes {
    pub(crate) fn new(alloc: Global) -> Notes
        ensures { notes_parts result ≡ no_notes }
    {
        Notes {
            orders: Vec::new(alloc),
            moments: Vec::new(alloc),
            sent_once: None,
            one_use: None,
            known_order: None,
            not_withdrawn: None,
            sums_add_up: None,
        }
    }

    /// Makes room for one more order.
    pub(crate) fn reserve(&mut self) -> Result<(), AllocError>
        ensures same { notes_parts self.new ≡ notes_parts self.old }
        ensures orders { OnOk result (length self.new.orders.items < vec_capacity self.new.orders) }
        ensures moments { OnOk result (length self.new.moments.items < vec_capacity self.new.moments) }
    {
        self.orders.reserve(1)?;
        self.moments.reserve(1)
    }

    /// Notes what the line of a number, logged at this moment, says, behind which there are so many orders.
    pub(crate) fn note(&mut self, number: u64, moment: Moment, said: &[Verdict; 22], count: usize)
        requires orders { length self.old.orders.items < vec_capacity self.old.orders }
        requires moments { length self.old.moments.items < vec_capacity self.old.moments }
        ensures { notes_parts self.new ≡ noted number moment said.now count (notes_parts self.old) }
    {
        note_line(&mut self.orders, number, count);
        note_moment(&mut self.moments, moment, count);
        self.sent_once = first_line(breaks(said, SENT_ONCE), number, self.sent_once);
        self.one_use = first_line(breaks(said, ONE_USE), number, self.one_use);
        self.known_order = first_line(fails(said, KNOWN_ORDER), number, self.known_order);
        self.not_withdrawn = first_line(breaks(said, NOT_WITHDRAWN), number, self.not_withdrawn);
        self.sums_add_up = first_line(breaks(said, SUMS_ADD_UP), number, self.sums_add_up);
    }
}
