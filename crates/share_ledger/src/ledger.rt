//! The history of a book, and the sums that are kept beside it.

ghost use Rattle.std.specs.Prelude.{◌≡◌, ◌<◌, ◌≤◌, ◌+◌, [], ◌∷◌, ◌++◌, Some, length, map, nat_lt, vec_len, vec_capacity, IfOk, IfSome, OnOk};
ghost use Rattle.std.specs.List.{list_all};
ghost use Rattle.std.specs.Option.{option_map};
ghost use Rattle.leg.specs.Answering.{Answers};
ghost use Rattle.leg.specs.Split.{IsSplit};
ghost use Rattle.share_ledger.specs.Entries.{order_of};
ghost use Rattle.share_ledger.specs.Book.{new_book, written, is_fit, next_sweep, open_sweep, withdraw, totals, totals_of, venue_resolved};
ghost use Rattle.share_ledger.specs.Kept.{IsKept, ChangesLeg, ledger_seen, booked_leg, opened_leg, legs_due};

use crate::booked_leg::BookedLeg;
use crate::{BookEntry, BookFault, MAX_DAY_SHARES, MAX_LEGS, shares_of};
use leg::{LegId, Legs, Routed, Split, Sweep, Totals, VenueId};
use std::alloc::{AllocError, Global};

/// The history of a book, and the sums that are kept beside it, so that no call walks the history.
#[derive(Drop)]
pub struct Ledger {
    /// The resolved shares of each venue.
    pub resolved: Vec<u64>,
    /// The legs of each sweep.
    pub sweeps: Vec<Vec<BookedLeg>>,
    /// The shares of all sweeps opened.
    pub shares: u64,
    /// How many withdrawals may still be written, for which the history has room.
    pub due: usize,
    pub history: Vec<BookEntry>,
}

impl Ledger {
    /// The ledger of so many venues, in which nothing is written.
    pub fn new(alloc: Global, venues: usize) -> Result<Ledger, AllocError>
        ensures kept { IfOk result IsKept }
        ensures empty { IfOk result (λ ledger. ledger_seen ledger ≡ new_book venues) }
    {
        let mut resolved = Vec::with_capacity(alloc, venues)?;
        'each: for _ in 0..venues {
            resolved.push_reserved(0);
        }
        Ok(Ledger {
            resolved,
            sweeps: Vec::new(alloc),
            shares: 0,
            due: 0,
            history: Vec::new(alloc),
        })
    }

    /// A leg that was opened.
    pub fn leg(&self, id: LegId) -> Option<BookedLeg>
        requires kept { IsKept self.now }
        ensures value { result ≡ option_map (booked_leg (ledger_seen self.now) id)
            (order_of id self.now.history.items) }
        ensures in_range { IfSome result (λ leg. IsSplit leg.parts) }
    {
        let legs = self.sweeps.get(id.sweep() as usize - 1)?;
        let leg = legs.get(usize::from(id.place()) - 1)?;
        leg.in_range();
        Some(*leg)
    }

    /// Writes a sweep under the next number, with all its shares open.
    pub fn open_sweep(&mut self, number: u64, sweep: &Sweep) -> Result<(), BookFault>
        requires kept { IsKept self.old }
        ensures kept { IsKept self.new }
        ensures answer { Answers BookFault.OutOfMemory (ledger_seen self.old)
            (open_sweep (ledger_seen self.old) number sweep.now.legs) result (ledger_seen self.new) }
    {
        if number != self.next_sweep() {
            return Err(BookFault::NotNext);
        }
        let legs = sweep.legs.as_slice();
        if !self.is_fit(legs) {
            return Err(BookFault::Unfit);
        }
        let alloc = *self.history.allocator();
        let open = all_open(alloc, legs)?;
        let copy = Legs::new(copied(alloc, legs)?);
        // Its own entry, and one for each leg that may be withdrawn.
        self.history.reserve(self.due + 1 + legs.len())?;
        self.sweeps.reserve(1)?;
        self.shares += shares_of(legs);
        self.due += legs.len();
        self.sweeps.push_reserved(open);
        self.history
            .push_reserved(BookEntry::Opened(Sweep { legs: copy }));
        Ok(())
    }

    /// The number that the next sweep has.
    pub fn next_sweep(&self) -> u64
        requires kept { IsKept self.now }
        ensures { result ≡ next_sweep (ledger_seen self.now) }
    {
        self.sweeps.len() as u64 + 1
    }

    /// Whether a sweep can be opened.
    fn is_fit(&self, legs: &[Routed]) -> bool
        requires kept { IsKept self.now }
        ensures { result ≡ is_fit (ledger_seen self.now) legs.now }
    {
        if legs.is_empty() || legs.len() > MAX_LEGS {
            return false;
        }
        are_known(self.resolved.len(), legs) && self.shares + shares_of(legs) <= MAX_DAY_SHARES
    }

    /// Writes that a leg is withdrawn, if all its shares are open.
    pub fn withdraw(&mut self, id: LegId) -> Result<(), BookFault>
        requires kept { IsKept self.old }
        ensures kept { IsKept self.new }
        ensures answer { (result, ledger_seen self.new) ≡ withdraw (ledger_seen self.old) id }
    {
        let Some(leg) = self.leg(id) else {
            return Err(BookFault::AlreadyMoved);
        };
        let mut now = leg;
        if now.parts.withdraw().is_err() {
            return Err(BookFault::AlreadyMoved);
        }
        self.settle(id, leg, now, BookEntry::Withdrawn(id));
        Ok(())
    }

    /// Makes room for one more entry.
    pub fn reserve(&mut self) -> Result<(), AllocError>
        requires kept { IsKept self.old }
        ensures kept { IsKept self.new }
        ensures seen { ledger_seen self.new ≡ ledger_seen self.old }
        ensures room { OnOk result (vec_len self.new.history + self.new.due + 1 ≤ vec_capacity self.new.history) }
    {
        self.history.reserve(self.due + 1)
    }

    /// Writes an entry that changes one leg. The history has room for it.
    pub fn settle(&mut self, id: LegId, was: BookedLeg, now: BookedLeg, entry: BookEntry)
        requires kept { IsKept self.old }
        requires change { ChangesLeg id was now entry (ledger_seen self.old) }
        requires room { vec_len self.old.history + self.old.due + 1 + legs_due now
            ≤ vec_capacity self.old.history + legs_due was }
        ensures kept { IsKept self.new }
        ensures seen { ledger_seen self.new ≡ written entry (ledger_seen self.old) }
    {
        self.due -= was.due() - now.due();
        self.resolved[usize::from(was.venue.number())] += was.parts.still_open()
            - now.parts.still_open();
        self.sweeps[id.sweep() as usize - 1][usize::from(id.place()) - 1] = now;
        self.history.push_reserved(entry);
    }

    /// The totals of a sweep, if it was opened.
    pub fn totals(&self, number: u64) -> Option<Totals>
        requires kept { IsKept self.now }
        ensures { result ≡ totals (ledger_seen self.now) number }
    {
        if number == 0 {
            return None;
        }
        let legs = self.sweeps.get(number as usize - 1)?;
        Some(totals_of(legs.as_slice()))
    }

    /// The shares of a venue's legs that are filled, busted, cancelled or withdrawn; none of one that isn't there.
    pub fn venue_resolved(&self, venue: VenueId) -> u64
        requires kept { IsKept self.now }
        ensures { result ≡ venue_resolved (ledger_seen self.now) venue }
    {
        match self.resolved.get(usize::from(venue.number())) {
            Some(shares) => *shares,
            None => 0,
        }
    }
}

/// Whether each order is for one of so many venues.
fn are_known(venues: usize, legs: &[Routed]) -> bool
    ensures { result ≡ list_all (λ routed. nat_lt routed.venue venues) legs.now }
{
    legs.iter()
        .all(|routed| usize::from(routed.venue.number()) < venues)
}

/// The legs of a sweep, with all their shares open.
fn all_open(alloc: Global, legs: &[Routed]) -> Result<Vec<BookedLeg>, AllocError>
    ensures { IfOk result (λ legs_open. legs_open.items ≡ map opened_leg legs.now) }
{
    let mut open = Vec::with_capacity(alloc, legs.len())?;
    for routed in legs {
        open.push_reserved(BookedLeg {
            venue: routed.venue,
            parts: Split::new(routed.terms.shares()),
        });
    }
    Ok(open)
}

/// A copy of a sweep's orders.
fn copied(alloc: Global, legs: &[Routed]) -> Result<Vec<Routed>, AllocError>
    ensures { IfOk result (λ copy. copy.items ≡ legs.now) }
{
    let mut copy = Vec::with_capacity(alloc, legs.len())?;
    for routed in legs {
        copy.push_reserved(Routed {
            venue: routed.venue,
            terms: routed.terms.clone().unwrap(),
        });
    }
    Ok(copy)
}

/// The sums of the parts of some legs.
fn totals_of(legs: &[BookedLeg]) -> Totals
    requires { length legs.now ≤ 32 }
    ensures { result ≡ totals_of legs.now }
{
    let mut sums = Totals {
        filled: 0,
        busted: 0,
        cancelled: 0,
        withdrawn: 0,
        still_open: 0,
    };
    for leg in legs {
        sums.filled += leg.parts.filled();
        sums.busted += leg.parts.busted();
        sums.cancelled += leg.parts.cancelled();
        sums.withdrawn += leg.parts.withdrawn();
        sums.still_open += leg.parts.still_open();
    }
    sums
}
