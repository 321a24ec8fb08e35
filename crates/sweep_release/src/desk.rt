//! The desk of released legs.

ghost use Rattle.std.specs.Prelude.{◌≡◌, ◌+◌, ◌<◌, ◌≤◌, [], ◌∷◌, ◌++◌, length, not, nat_le, IfOk, IfNone, OnOk, OnErr};
ghost use Rattle.std.specs.Prelude.{IsOk, IsOkUnless};
ghost use Rattle.std.specs.List.{All};
ghost use Rattle.share_ledger.specs.Entries.{sweep_shares};
ghost use Rattle.leg.specs.Answering.{Answers};
ghost use Rattle.sweep_release.specs.Desk.{new_desk, venue_at, is_up, refused_at, count_to, backlog_refusal};
ghost use Rattle.sweep_release.specs.Desk.{release_refusal, ready, release, gate_of, placed, placed_shares, next_leg};
ghost use Rattle.sweep_release.specs.Desk.{next_number, with_gate, gate_up, gate_down, shut, leave, take, drop_next};
ghost use Rattle.sweep_release.specs.History.{without_room, with_entries, release_entries, gate_up_entries};
ghost use Rattle.sweep_release.specs.History.{gate_down_entries, shut_entries, left_entries, take_entries};
ghost use Rattle.sweep_release.specs.History.{drop_next_entries};
ghost use Rattle.sweep_release.specs.Gates.{gate_due};
ghost use Rattle.sweep_release.specs.Released.{released};
ghost use Rattle.sweep_release.specs.Kept.{released_sweeps, AreShort, HaveRoom, IsEnqueued};

use crate::enqueue::enqueue;
use crate::refusing::refusal;
use crate::reserve::reserve;
use crate::venue::Venue;
use crate::{DeskEntry, Gate, GateFault, Receipt, ReleaseFault};
use leg::{Leg, PlacedLeg, Sweep, VenueId};
use share_ledger::shares_of;
use std::alloc::{AllocError, Global};
use std::marker::Model;

/// The most legs that are placed at a venue, neither taken nor dropped.
pub const MAX_PLACED: usize = 256;

/// The desk: the legs of a sweep are released to its venues together or not at all, and leave leg by leg. A call for a
/// venue that the desk hasn't got is a broken condition, except at a release, `released` and `left`.
#[derive(Drop)]
pub struct Desk {
    venues: Vec<Venue>,
    sweeps: u64,
    shares: u64,
    /// How many entries the calls that take no memory may still write.
    due: usize,
    /// How many legs each venue, and how many more entries the history, has room for.
    room: usize,
    history: Vec<DeskEntry>,
}

impl Model for Desk {
    ghost use Rattle.sweep_release.specs.History.{KeptDesk};

    ghost Value = { KeptDesk };

    ghost use Rattle.sweep_release.specs.Kept.{desk_seen, IsKept};

    ghost view = { desk_seen };

    ghost invariant = { IsKept };
}

impl Desk {
    /// A desk of 1 to 16 venues, all gates down. R07.
    pub fn new(alloc: Global, venues: u8) -> Result<Desk, ReleaseFault>
        requires low { 1 ≤ venues }
        requires high { venues ≤ 16 }
        ensures ok { IfOk result (λ desk. without_room desk ≡ record { desk = new_desk venues; history = [] }) }
        ensures only { IsOkUnless result ReleaseFault.OutOfMemory }
    {
        let count = usize::from(venues);
        let mut list = Vec::with_capacity(alloc, count)?;
        for _ in 0..count {
            list.push(Venue {
                gate: Gate::Down,
                left: 0,
                released: Vec::new(alloc),
            })?;
        }
        Ok(Desk {
            venues: list,
            sweeps: 0,
            shares: 0,
            due: count,
            room: 0,
            history: Vec::with_capacity(alloc, count)?,
        })
    }

    /// How many venues the desk has, 1 to 16.
    pub fn venues(&self) -> usize
        ensures value { result ≡ length self.now.desk.venues }
        ensures few { result ≤ 16 }
    {
        self.venues.len()
    }

    /// Whether legs are released to a venue, and taken to it.
    pub fn gate(&self, venue: VenueId) -> Gate
        requires { venue < length self.now.desk.venues }
        ensures { result ≡ gate_of self.now.desk venue }
    {
        self.venues[usize::from(venue.number())].gate
    }

    /// How many legs are placed at a venue, neither taken nor dropped.
    pub fn placed(&self, venue: VenueId) -> usize
        requires { venue < length self.now.desk.venues }
        ensures value { result ≡ placed self.now.desk venue }
        ensures few { result ≤ 256 }
    {
        let at = &self.venues[usize::from(venue.number())];
        at.released.len() - at.left
    }

    /// The next leg of a venue, whatever its gate: that which leaves with the next call that takes or drops one there.
    pub fn next_leg(&self, venue: VenueId) -> Option<PlacedLeg>
        requires { venue < length self.now.desk.venues }
        ensures { result ≡ next_leg self.now.desk venue }
    {
        let at = &self.venues[usize::from(venue.number())];
        match at.released.get(at.left) {
            Some(leg) => Some(PlacedLeg {
                ordinal: at.left as u64 + 1,
                leg: leg.clone().unwrap(),
            }),
            None => None,
        }
    }

    /// The legs released to a venue, placed or left, in the order of their ordinals: by the sweep's number, then by the
    /// place. There are none at a venue that the desk hasn't got.
    pub fn released(&self, venue: VenueId) -> &[Leg]
        ensures { result.now ≡ released venue self.now.desk.sweeps }
    {
        match self.venues.get(usize::from(venue.number())) {
            Some(at) => at.released.as_slice(),
            None => &[],
        }
    }

    /// How many of the legs released to a venue left, taken or dropped: those of the lowest ordinals. None left for a
    /// venue that the desk hasn't got.
    pub fn left(&self, venue: VenueId) -> usize
        ensures { result ≡ (venue_at self.now.desk venue).left }
    {
        match self.venues.get(usize::from(venue.number())) {
            Some(at) => at.left,
            None => 0,
        }
    }

    /// The shares of all sweeps released, at most 10^18.
    pub fn placed_shares(&self) -> u64
        ensures value { result ≡ placed_shares self.now.desk }
        ensures few { result ≤ 1000000000000000000 }
    {
        self.shares
    }

    /// The calls that changed the desk, in order. They lead to it again from a new one, and the sweeps among them are
    /// the desk's, each of at most 32 legs.
    pub fn history(&self) -> &[DeskEntry]
        ensures value { result.now ≡ self.now.history }
        ensures sweeps { released_sweeps result.now ≡ self.now.desk.sweeps }
        ensures short { AreShort self.now.desk.sweeps }
    {
        self.history.as_slice()
    }

    /// Puts a gate up, so that legs are released to the venue and taken to it. An open gate stays so, whatever memory
    /// there is. G02 where it was shut, G01 where legs are still placed, G03 only where it is put up.
    pub fn gate_up(&mut self, venue: VenueId) -> Result<(), GateFault>
        requires { venue < length self.old.desk.venues }
        ensures answer { Answers GateFault.OutOfMemory (without_room self.old)
            (with_entries (without_room self.old) (gate_up_entries self.old.desk venue) (gate_up self.old.desk venue))
            result (without_room self.new) }
        ensures open { gate_of self.old.desk venue ≡ Gate.Up → result ≡ Ok tt }
        ensures still { gate_of self.old.desk venue ≡ Gate.Up → self.new ≡ self.old }
        ensures room { OnErr result (self.new.room ≡ self.old.room) }
    {
        match self.gate(venue) {
            Gate::Up => return Ok(()),
            Gate::Shut => return Err(GateFault::Closed),
            Gate::Down => {}
        }
        if self.placed(venue) > 0 {
            return Err(GateFault::NotDrained);
        }
        // Its own entry, and that of putting the gate down again.
        self.history.reserve(self.due + self.room + 2)?;
        let at = &mut self.venues[usize::from(venue.number())];
        at.gate = Gate::Up;
        self.due += 1;
        self.history.push_reserved(DeskEntry::Up(venue));
        Ok(())
    }

    /// Puts a gate down that is up. It takes no memory.
    pub fn gate_down(&mut self, venue: VenueId)
        requires { venue < length self.old.desk.venues }
        ensures desk { self.new.desk ≡ gate_down self.old.desk venue }
        ensures history { self.new.history ≡ self.old.history ++ gate_down_entries self.old.desk venue }
        ensures room { self.old.room ≤ self.new.room }
    {
        match self.gate(venue) {
            Gate::Up => self.turn(venue, Gate::Down, DeskEntry::Down(venue)),
            Gate::Down => {}
            Gate::Shut => {}
        }
    }

    /// Shuts a gate, for good. It takes no memory.
    pub fn shut(&mut self, venue: VenueId)
        requires { venue < length self.old.desk.venues }
        ensures desk { self.new.desk ≡ shut self.old.desk venue }
        ensures history { self.new.history ≡ self.old.history ++ shut_entries self.old.desk venue }
        ensures room { self.old.room ≤ self.new.room }
    {
        match self.gate(venue) {
            Gate::Up => self.turn(venue, Gate::Shut, DeskEntry::Shut(venue)),
            Gate::Down => self.turn(venue, Gate::Shut, DeskEntry::Shut(venue)),
            Gate::Shut => {}
        }
    }

    /// Puts a gate so that fewer entries are due, and writes this one.
    fn turn(&mut self, venue: VenueId, gate: Gate, entry: DeskEntry)
        requires there { venue < length self.old.desk.venues }
        requires fewer { gate_due gate < gate_due (gate_of self.old.desk venue) }
        requires no_release { released_sweeps (entry ∷ []) ≡ [] }
        ensures desk { self.new.desk ≡ with_gate venue gate self.old.desk }
        ensures history { self.new.history ≡ self.old.history ++ entry ∷ [] }
        ensures room { self.old.room ≤ self.new.room }
    {
        let at = &mut self.venues[usize::from(venue.number())];
        self.due -= at.gate.due() - gate.due();
        at.gate = gate;
        self.history.push_reserved(entry);
    }

    /// The next leg leaves, while the gate is up. It takes no memory.
    pub fn take(&mut self, venue: VenueId) -> Option<PlacedLeg>
        requires { venue < length self.old.desk.venues }
        ensures leg { result ≡ (take self.old.desk venue).0 }
        ensures desk { self.new.desk ≡ (take self.old.desk venue).1 }
        ensures history { self.new.history ≡ self.old.history ++ take_entries self.old.desk venue }
        ensures room { self.new.room ≡ self.old.room }
    {
        match self.gate(venue) {
            Gate::Up => self.leave(venue, DeskEntry::Taken(venue)),
            Gate::Down => None,
            Gate::Shut => None,
        }
    }

    /// The next leg leaves, while the gate is down or shut. It takes no memory.
    pub fn drop_next(&mut self, venue: VenueId) -> Option<PlacedLeg>
        requires { venue < length self.old.desk.venues }
        ensures leg { result ≡ (drop_next self.old.desk venue).0 }
        ensures desk { self.new.desk ≡ (drop_next self.old.desk venue).1 }
        ensures history { self.new.history ≡ self.old.history ++ drop_next_entries self.old.desk venue }
        ensures room { self.new.room ≡ self.old.room }
    {
        match self.gate(venue) {
            Gate::Up => None,
            Gate::Down => self.leave(venue, DeskEntry::Dropped(venue)),
            Gate::Shut => self.leave(venue, DeskEntry::Dropped(venue)),
        }
    }

    /// The next leg leaves, whatever the gate; the entry says how.
    fn leave(&mut self, venue: VenueId, entry: DeskEntry) -> Option<PlacedLeg>
        requires there { venue < length self.old.desk.venues }
        requires no_release { released_sweeps (entry ∷ []) ≡ [] }
        ensures leg { result ≡ (leave self.old.desk venue).0 }
        ensures desk { self.new.desk ≡ (leave self.old.desk venue).1 }
        ensures history { self.new.history ≡ self.old.history ++ left_entries entry (leave self.old.desk venue).0 }
        ensures room { self.new.room ≡ self.old.room }
    {
        let next = self.next_leg(venue)?;
        let at = &mut self.venues[usize::from(venue.number())];
        at.left += 1;
        self.due -= 1;
        self.history.push_reserved(entry);
        Some(next)
    }

    /// Whether a release of this sweep would be refused, and for what; where it wouldn't, the room for it is reserved,
    /// so that its release, with no other call between, is never R07. It changes nothing else. R01 to R07, which comes
    /// only where there is less room.
    pub fn ready(&mut self, sweep: &Sweep) -> Result<(), ReleaseFault>
        ensures answer { Answers ReleaseFault.OutOfMemory (without_room self.old)
            (with_entries (without_room self.old) [] (ready self.old.desk sweep.now.legs))
            result (without_room self.new) }
        ensures there { 1 + length sweep.now.legs ≤ self.old.room → result ≡ (ready self.old.desk sweep.now.legs).0 }
        ensures still { 1 + length sweep.now.legs ≤ self.old.room → self.new ≡ self.old }
        ensures reserved { IfOk result (λ _. 1 + length sweep.now.legs ≤ self.new.room) }
        ensures room { OnErr result (self.new.room ≡ self.old.room) }
    {
        let legs = sweep.legs.as_slice();
        if let Some(fault) = refusal(self, legs) {
            return Err(fault);
        }
        Ok(self.reserve(legs.len())?)
    }

    /// Makes room for a release of so many legs: for them at each venue, for its entry, and for one of each leg that
    /// will leave. Where the room is there, it does nothing.
    fn reserve(&mut self, legs: usize) -> Result<(), AllocError>
        requires { legs ≤ 32 }
        ensures desk { self.new.desk ≡ self.old.desk }
        ensures history { self.new.history ≡ self.old.history }
        ensures ok { OnOk result (1 + legs ≤ self.new.room) }
        ensures err { OnErr result (self.new.room ≡ self.old.room) }
        ensures there { 1 + legs ≤ self.old.room → IsOk result }
        ensures same { 1 + legs ≤ self.old.room → self.new ≡ self.old }
    {
        let room = 1 + legs;
        if self.room < room {
            reserve(&mut self.venues, room)?;
            self.history.reserve(self.due + room)?;
            self.room = room;
        }
        Ok(())
    }

    /// Releases a sweep, whole or not at all. R01 to R07; a refused sweep is dropped.
    pub fn release(&mut self, sweep: Sweep) -> Result<Receipt, ReleaseFault>
        ensures answer { Answers ReleaseFault.OutOfMemory (without_room self.old)
            (with_entries (without_room self.old) (release_entries sweep.legs (release self.old.desk sweep.legs).0)
            (release self.old.desk sweep.legs)) result (without_room self.new) }
        ensures reserved { 1 + length sweep.legs ≤ self.old.room → result ≡ (release self.old.desk sweep.legs).0 }
        ensures room { OnErr result (self.new.room ≡ self.old.room) }
    {
        let legs = sweep.legs.as_slice();
        if let Some(fault) = refusal(self, legs) {
            return Err(fault);
        }
        self.reserve(legs.len())?;
        let receipt = Receipt {
            number: self.sweeps + 1,
            shares: shares_of(legs),
        };
        enqueue(&mut self.venues, receipt.number, legs);
        self.sweeps = receipt.number;
        self.shares += receipt.shares;
        self.due += legs.len();
        self.room -= 1 + legs.len();
        self.history.push_reserved(DeskEntry::Released(sweep));
        Ok(receipt)
    }

    /// The number of the next sweep.
    pub(crate) fn next_number(&self) -> u64
        ensures value { result ≡ next_number self.now.desk }
        ensures low { 1 ≤ result }
        ensures high { result ≤ 1000000000000 }
    {
        self.sweeps + 1
    }
}
