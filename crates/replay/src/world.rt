//! The world.

ghost use Rattle.std.specs.Prelude.{◌≡◌, ◌<◌, ◌≤◌, [], length, Some, None};
ghost use Rattle.std.specs.Option.{option_copied};
ghost use Rattle.dialect.specs.Wording.{Decoding};
ghost use Rattle.session_core.specs.Session.{leg_state};
ghost use Rattle.schedule.specs.World.{accepted, closed_at, given, made, released_to, state_of, totals, of_venue, venue_in};
ghost use Rattle.venue_replay.specs.Network.{all_said};

mod act_events;
mod beginning_again;
mod delivery_events;
mod desk_events;
mod end_events;
mod happening;
mod opening;
mod session_events;
mod take_event;

use dialect::{Dialect, Note, Report};
pub use happening::venue_of;
use leg::{Leg, LegState, Totals, VenueId};
use session_core::Phase;
use share_ledger::Book;
use std::marker::Model;
use sweep_release::Desk;
use venue_replay::{Frame, Venue};

/// A desk, a book, and for each venue a session, an exchange and the network between them.
#[derive(Drop)]
pub struct World<D: Dialect + Drop> {
    desk: Desk,
    book: Book,
    venues: Vec<Venue<D>>,
}

impl<D: Dialect + Drop> Model for World<D> {
    ghost use Rattle.std.specs.Prelude.{◌≡◌, length};
    ghost use Rattle.schedule.specs.World.{World};

    ghost Value = { World };

    ghost view = { λ w. record { desk = w.desk.desk; book = w.book; venues = w.venues.items } };

    ghost invariant = { λ w. length w.desk.desk.venues ≡ length w.venues.items };
}

impl<D: Dialect + Drop> World<D> {
    /// The orders that a venue's exchange accepted, in order; none where there is no such venue.
    pub fn accepted(&self, venue: VenueId) -> &[Leg]
        ensures { result.now ≡ accepted self.now venue }
    {
        match self.venue(venue) {
            Some(venue) => venue.accepted(),
            None => &[],
        }
    }

    /// How many orders a venue's exchange had accepted when it took the session's Logout, if it did.
    pub fn closed_at(&self, venue: VenueId) -> Option<usize>
        ensures { result ≡ closed_at self.now venue }
    {
        match self.venue(venue) {
            Some(venue) => venue.closed_at(),
            None => None,
        }
    }

    /// The notes of a venue that were handed to the book, whatever it answered, in order.
    pub fn given(&self, venue: VenueId) -> &[Note]
        ensures { result.now ≡ given self.now venue }
    {
        match self.venue(venue) {
            Some(venue) => venue.given(),
            None => &[],
        }
    }

    /// The reports that a venue's exchange made, in order.
    pub fn made(&self, venue: VenueId) -> &[Report]
        ensures { result.now ≡ made self.now venue }
    {
        match self.venue(venue) {
            Some(venue) => venue.made(),
            None => &[],
        }
    }

    /// The legs released to a venue, in the order of their ordinals; none where there is no such venue.
    pub fn released(&self, venue: VenueId) -> &[Leg]
        ensures { result.now ≡ released_to self.now venue }
    {
        self.desk.released(venue)
    }

    /// How far the leg of an ordinal is, which is its place among the legs released to a venue, from 1; none where no
    /// such leg was released.
    pub fn state(&self, venue: VenueId, ordinal: u64) -> Option<LegState>
        ensures { result ≡ state_of self.now venue ordinal }
    {
        let released = self.released(venue).len() as u64;
        let left = self.desk.left(venue) as u64;
        if ordinal == 0 || released < ordinal {
            return None;
        }
        if left < ordinal {
            return Some(LegState::Queued);
        }
        match self.sent(venue, ordinal) {
            Some(state) => Some(state),
            None => Some(LegState::Withdrawn),
        }
    }

    /// How far the leg of an ordinal is settled, if it was sent.
    pub(crate) fn sent(&self, venue: VenueId, ordinal: u64) -> Option<LegState>
        ensures { result ≡ of_venue self.now venue None (λ at. leg_state at.session ordinal) }
    {
        match self.venue(venue) {
            Some(venue) => venue.leg_state(ordinal),
            None => None,
        }
    }

    /// How far the session of a venue has come; none where there is no such venue.
    pub fn phase(&self, venue: VenueId) -> Option<Phase>
        ensures { result ≡ of_venue self.now venue None (λ at. Some at.session.phase) }
    {
        match self.venue(venue) {
            Some(venue) => Some(venue.phase()),
            None => None,
        }
    }

    /// How many connections the session of a venue had, with the present one; 0 where there is no such venue.
    pub fn connection(&self, venue: VenueId) -> u64
        ensures { result ≡ of_venue self.now venue 0 (λ at. at.session.connection) }
    {
        match self.venue(venue) {
            Some(venue) => venue.connection(),
            None => 0,
        }
    }

    /// The number that the session of a venue expects of the exchange's next message; 0 where there is no such venue.
    pub fn session_expects(&self, venue: VenueId) -> u64
        ensures { result ≡ of_venue self.now venue 0 (λ at. at.session.expected) }
    {
        match self.venue(venue) {
            Some(venue) => venue.session_expects(),
            None => 0,
        }
    }

    /// The number that the exchange of a venue expects of the session's next message; 0 where there is no such venue.
    pub fn exchange_expects(&self, venue: VenueId) -> u64
        ensures { result ≡ of_venue self.now venue 0 (λ at. at.exchange.expected) }
    {
        match self.venue(venue) {
            Some(venue) => venue.exchange_expects(),
            None => 0,
        }
    }

    /// How many venues there are, at most 16.
    pub fn venues(&self) -> usize
        ensures value { result ≡ length self.now.venues }
        ensures few { result ≤ 16 }
    {
        self.desk.venues()
    }

    /// The desk. Its history has the sweeps, in the order of their numbers.
    pub fn desk(&self) -> &Desk
        ensures { result.now.desk ≡ self.now.desk }
    {
        &self.desk
    }

    /// The frames ever written to the exchange of a venue, in order, each read as the message that it was written of;
    /// none where there is no such venue.
    pub fn frames_to(&self, venue: VenueId) -> &[Frame]
        ensures { (read : Decoding) × (of_venue self.now venue [] (λ at. at.to_exchange) ≡ all_said read result.now) }
    {
        match self.venue(venue) {
            Some(venue) => venue.frames_to(),
            None => &[],
        }
    }

    /// The frames ever written by the exchange of a venue, in order, each read as the message that it was written of;
    /// none where there is no such venue.
    pub fn frames_from(&self, venue: VenueId) -> &[Frame]
        ensures { (read : Decoding) × (of_venue self.now venue [] (λ at. at.from_exchange) ≡ all_said read result.now) }
    {
        match self.venue(venue) {
            Some(venue) => venue.frames_from(),
            None => &[],
        }
    }

    /// The book.
    pub fn book(&self) -> &Book
        ensures { result.now ≡ self.now.book }
    {
        &self.book
    }

    /// The parts of a sweep's shares, if it was released.
    pub fn totals(&self, sweep: u64) -> Option<Totals>
        ensures { result ≡ totals self.now sweep }
    {
        self.book.totals(sweep)
    }

    /// A venue, if it is there.
    fn venue(&self, venue: VenueId) -> Option<&Venue<D>>
        ensures { option_copied result ≡ venue_in self.now venue }
    {
        self.venues.get(usize::from(venue.number()))
    }

    /// A venue that is there.
    fn at(&self, venue: VenueId) -> &Venue<D>
        requires { venue < length self.now.venues }
        ensures { venue_in self.now venue ≡ Some result.now }
    {
        &self.venues[usize::from(venue.number())]
    }
}
